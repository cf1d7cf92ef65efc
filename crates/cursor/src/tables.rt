// A state of a record, by its tables.
ghost use Rattle.std.specs.Prelude.{◌≡◌, [], ◌<◌, get_or, length, take};
ghost use Rattle.walker.specs.Tables.{states_of, Fit};

use crate::states::find_state;
use numbers::sizes::MOST_EDGES;
use walker::tables::Walker;

// The state with a number stands in the first n_edges entries.
pub fn state_at(w: &Walker, lambda: usize, blocks: usize, place: usize) -> [i32; MOST_EDGES]
    requires { Fit w.now lambda blocks × (place < length (states_of w.now lambda blocks)) }
    ensures { (length result ≡ 63) × (take w.now.n_edges result ≡ get_or (states_of w.now lambda blocks) place []) }
{
    let mut space = w.first;
    find_state(&mut space[..w.n_edges], w, lambda, blocks, place);
    space
}
