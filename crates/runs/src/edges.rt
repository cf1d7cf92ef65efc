// The edges by what the first two cycles do to them. A run of blocks is judged by those that neither moves, narrowed by those that the
// second alone moves, and each of its blocks by those that the first moves.
ghost use Rattle.std.specs.Prelude.{◌≡◌, ◌≤◌, length};
ghost use Rattle.runs.specs.Edges.{Listed, Judged};
ghost use Rattle.runs.specs.Kinds.{KindsOf};

use numbers::edge_list::EdgeList;
use walker::blocks::within;

// The edges that neither cycle moves, those that the second alone moves, and those that the first moves.
#[derive(Clone, Copy)]
pub struct Kinds {
    pub still: EdgeList,
    pub side: EdgeList,
    pub moved: EdgeList,
}

impl Kinds {
    // The edges of each kind, by the signs of the first two cycles.
    pub fn of(first: &[i8], second: &[i8]) -> Kinds
        requires { (length first.now ≤ 63) × (length second.now ≡ length first.now) }
        ensures { KindsOf first.now second.now (length first.now) result }
    {
        let mut still = EdgeList::new();
        let mut side = EdgeList::new();
        let mut moved = EdgeList::new();
        for (e, sign) in first.iter().enumerate() {
            if *sign != 0 {
                moved.push(e as u8);
            } else if second[e] != 0 {
                side.push(e as u8);
            } else {
                still.push(e as u8);
            }
        }
        Kinds { still, side, moved }
    }
}

// Whether the values on listed edges are within the bounds.
pub fn all_within(config: &[i32], list: &[u8], lambda: usize) -> bool
    requires { Listed (length config.now) list.now (length list.now) × (lambda ≤ 1000) }
    ensures { Judged lambda config.now list.now (length list.now) result }
{
    for e in list {
        if !within(config[usize::from(*e)], lambda) {
            return false;
        }
    }
    true
}
