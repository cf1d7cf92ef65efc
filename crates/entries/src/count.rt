// How many entries the rows have, counted state by state as a cursor goes over them, without a list. There is no heap, so the table `all` of the
// sides of all triangles has room for the most triangles.
ghost use Rattle.std.specs.Prelude.{◌≡◌, ◌≤◌};
ghost use Rattle.walker.specs.Tables.{states_of};
ghost use Rattle.plaquettes.specs.Pairs.{three, Movable};
ghost use Rattle.entries.specs.Count.{over_states, both_stay, moves_stay, row_entries, Countable, AllCountable};

use cursor::Cursor;
use enumeration::basis::Basis;
use numbers::sizes::MOST_EDGES;
use plaquettes::pairs::stays;
use triangles::{Sides, sides_at};
use walker::row::fill_row;

// How many of both moves of a triangle keep its three values within -lambda to lambda.
#[tactic(auto, unfolding(crate::specs::Count::both_stay))]
fn count_both(state: &[i32], sides: Sides, lambda: usize) -> usize
    requires { Movable state.now (three sides) × (lambda ≤ 1000) }
    ensures { (result ≡ both_stay lambda state.now (three sides)) × (result ≤ 2) }
{
    usize::from(stays(state, sides, 1, lambda)) + usize::from(stays(state, sides, -1, lambda))
}

// How many moves of the first n triangles keep their values there. By number: the three sides of triangle t stand in one flat table.
fn count_moves(state: &[i32], all: &[u8; 768], n: usize, lambda: usize) -> usize
    requires { Countable lambda state.now all.now n }
    ensures { (result ≡ moves_stay lambda state.now all.now n) × (result ≤ 512) }
{
    let mut count = 0;
    for t in 0..n {
        count += count_both(state, sides_at(all, t), lambda);
    }
    count
}

// How many entries the row of a state has: one on the diagonal where some value is not 0, and one for each move.
fn count_row(state: &[i32], all: &[u8; 768], n: usize, lambda: usize) -> usize
    requires { Countable lambda state.now all.now n }
    ensures { (result ≡ row_entries lambda all.now n state.now) × (result ≤ 513) }
{
    usize::from(state.iter().any(|x| *x != 0)) + count_moves(state, all, n, lambda)
}

// How many entries the rows of all states of a basis have, n the number of the triangles whose edges are listed. The states stand in no list:
// a cursor goes over them, as long as one is left.
pub fn count_rows(basis: &Basis, all: &[u8; 768], n: usize) -> usize
    requires { AllCountable basis.now.lambda (states_of basis.now.walker basis.now.lambda basis.now.blocks) all.now n }
    ensures { result ≡ over_states (row_entries basis.now.lambda all.now n) (states_of basis.now.walker basis.now.lambda basis.now.blocks) }
{
    let w = &basis.walker;
    let lambda = basis.lambda;
    let mut space = w.first;
    let config = &mut space[..w.n_edges];
    let mut room = [0i32; MOST_EDGES];
    let state = &mut room[..config.len()];
    let mut total = 0;
    let mut here = Cursor::first(config, w, lambda, basis.blocks, 0);
    while 0 < here.left {
        fill_row(state, config, &w.cycles[..config.len()], here.d);
        total += count_row(state, all, n, lambda);
        here = here.next(config, w, lambda);
    }
    total
}
