// One of all states, found by its number.
ghost use Rattle.std.specs.Prelude.{◌≡◌, [], ◌<◌, get_or, length};
ghost use Rattle.cycles.specs.Cycles.{row};
ghost use Rattle.walker.specs.Walker.{walked_states};
ghost use Rattle.walker.specs.Steps.{Walkable};

use crate::Cursor;
use walker::steps::add;
use walker::tables::Walker;

// From the first candidate to the state with a number. How many blocks are before it shows only as they are passed.
pub fn find_state(config: &mut [i32], w: &Walker, lambda: usize, blocks: usize, place: usize)
    requires { Walkable w.now.free w.now.cycles lambda w.now.n_free config.old blocks × (place < length (walked_states w.now.free (row (length config.old) w.now.cycles) lambda w.now.n_free config.old blocks)) }
    ensures { config.new ≡ get_or (walked_states w.now.free (row (length config.old) w.now.cycles) lambda w.now.n_free config.old blocks) place [] }
{
    let mut c = Cursor::first(config, w, lambda, blocks, 0);
    while c.to - c.d <= place - c.number {
        c = c.next_block(config, w, lambda);
    }
    let m = config.len();
    let times = c.d + (place - c.number);
    add(config, &w.cycles[..m], times as i32);
}
