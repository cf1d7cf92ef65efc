// A triangle's move takes the states that it keeps within the bounds, in order, to those that the move back keeps there, in order. So the
// target of a state is the next of those, and no state is sought by its values.
ghost use Rattle.std.specs.Prelude.{◌≡◌, ◌<◌, ◌≤◌, nat_abs, ◌+ℤ◌};
ghost use Rattle.gauss_law.specs.Gauss.{within};
ghost use Rattle.plaquettes.specs.Pairs.{three, stays, row_stays, Movable, MovableRows, NextStaying, PairFound};

use crate::rows::row_at;
use crate::target::Sizes;
use triangles::Sides;
use walker::blocks::within;

// Whether a value with 1 or -1 added is within -lambda to lambda.
#[tactic(auto, unfolding(gauss_law::specs::Gauss::within))]
fn value_stays(x: i32, by: i32, lambda: usize) -> bool
    requires { (nat_abs x ≤ 1000) × (nat_abs by ≤ 1) × (lambda ≤ 1000) }
    ensures { result ≡ within lambda (x +ℤ by) }
{
    within(x + by, lambda)
}

// Whether a triangle's move by 1 or -1 keeps its three values there.
pub fn stays(state: &[i32], sides: Sides, by: i32, lambda: usize) -> bool
    requires { Movable state.now (three sides) × (lambda ≤ 1000) × (nat_abs by ≤ 1) }
    ensures { result ≡ stays lambda state.now (three sides) by }
{
    if !value_stays(state[sides.first], by, lambda) {
        return false;
    }
    if !value_stays(state[sides.second], -by, lambda) {
        return false;
    }
    value_stays(state[sides.third], by, lambda)
}

// Whether it keeps those of the state at a place of the list.
fn row_stays(list: &[i32], s: Sizes, sides: Sides, by: i32, place: usize) -> bool
    requires { MovableRows list.now s sides × (nat_abs by ≤ 1) × (place < s.states) }
    ensures { result ≡ row_stays list.now s sides by place }
{
    stays(row_at(list, s.edges, place), sides, by, s.lambda)
}

// The first state from a place on of which that is so, or the number of states: what is told is the place from which the next search goes on.
// By number: the rows are no chunks, as a row may have no values.
pub fn next_staying(list: &[i32], s: Sizes, sides: Sides, by: i32, from: usize) -> usize
    requires { MovableRows list.now s sides × (nat_abs by ≤ 1) × (from ≤ s.states) }
    ensures { NextStaying list.now s sides by from result }
{
    for place in from..s.states {
        if row_stays(list, s, sides, by, place) {
            return place;
        }
    }
    s.states
}

// Where a triangle's move takes the state at a place, or the number of states: where the move does not keep that state, what the search tells
// where none is left: with an `Option` that number would be tested here and the `Option` again by the caller. The targets of the states before
// it are before a given place, and its own is not.
pub fn find_pair(list: &[i32], s: Sizes, sides: Sides, by: i32, place: usize, from: usize) -> usize
    requires { MovableRows list.now s sides × (nat_abs by ≤ 1) × (place < s.states) × (from ≤ s.states) }
    ensures { PairFound list.now s sides by place from result }
{
    if !row_stays(list, s, sides, by, place) {
        return s.states;
    }
    next_staying(list, s, sides, -by, from)
}
