// The walk over the list of answers, case by case.
ghost use Rattle.std.specs.Prelude.{◌≡◌, ◌≤◌, length};
ghost use Rattle.recorded_fields.specs.Layout.{case_at, well_formed};
ghost use Rattle.replay.specs.Cases.{ends, replayed};

use crate::compare::case_same;
use recorded::number::byte_at;
use recorded_fields::case::{Case, FIELDS, place};

// How many cases there are, and how many of them differ.
#[derive(Clone, Copy)]
pub struct Counts {
    pub cases: usize,
    pub differ: usize,
}

// A case or the end of the list is not what the format says, from a place on.
#[derive(Clone, Copy)]
pub struct Malformed {
    pub at: usize,
}

// Whether a whole case stands at a place.
#[tactic(auto, unfolding(recorded_fields::specs::Layout::well_formed, recorded_fields::specs::Layout::case_at))]
fn stands(list: &[u8], at: usize) -> bool
    requires { at ≤ length list.now }
    ensures { result ≡ well_formed (length list.now) (case_at list.now at) }
{
    let kind = byte_at(list, at);
    ((1 <= kind) & (kind <= 26)) & (place(list, at, FIELDS) <= list.len())
}

// Whether the byte 0 stands at a place, and nothing behind it.
#[tactic(auto, unfolding(crate::specs::Cases::ends))]
fn ends(list: &[u8], at: usize) -> bool
    requires { at ≤ length list.now }
    ensures { result ≡ ends list.now at }
{
    (at + 1 == list.len()) & (byte_at(list, at) == 0)
}

// A case says by its fields where the next one begins, so the loop goes by the place.
pub fn replay(list: &[u8]) -> Result<Counts, Malformed>
    ensures { result ≡ replayed list.now }
{
    let mut at = 0;
    let mut cases = 0;
    let mut differ = 0;
    while stands(list, at) {
        if !case_same(Case { list, at }) {
            differ += 1;
        }
        cases += 1;
        at = place(list, at, FIELDS);
    }
    if ends(list, at) {
        return Ok(Counts { cases, differ });
    }
    Err(Malformed { at })
}
