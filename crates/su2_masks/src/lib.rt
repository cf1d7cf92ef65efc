// The even edge sets as masks: the list of all of them, and the place of one in it.
#![tactic(auto)]

pub mod accepted;
pub mod count;
pub mod flip;
pub mod place;

ghost use Rattle.std.specs.Prelude.{◌≡◌, ◌++◌, map, ◌+◌, ◌^◌, ◌≤◌, length, take, drop};
ghost use Rattle.std.specs.Int.Bits.{bit_xor};
ghost use Rattle.complex.specs.Complex.{complex_of};
ghost use Rattle.su2_even_sets.specs.Loops.{loop_sums};
ghost use Rattle.mathematics.specs.Calls.{Answered};
ghost use Rattle.answers.specs.Refusal.{answer_of};
ghost use Rattle.su2_masks.specs.Basis.{su2_basis_call};

use crate::accepted::accepted_loops;
use answers::refusal::Refusal;
use complex::SimplicialComplex;

// The first masks, each with a loop added, go behind them.
fn double(states: &mut [u64], count: usize, cycle: u64)
    requires { (count ≤ 2 ^ 20) × (count + count ≤ length states.old) }
    ensures { states.new ≡ take count states.old ++ map (λ x. bit_xor x cycle) (take count states.old) ++ drop (count + count) states.old }
{
    let (first, rest) = states.split_at_mut(count);
    for (i, mask) in first.iter().enumerate() {
        rest[i] = *mask ^ cycle;
    }
}

// All sums of some loops go to the beginning of a list.
pub fn write_masks(states: &mut [u64], loops: &[u64])
    requires { (length loops.now ≤ 20) × (2 ^ length loops.now ≤ length states.old) }
    ensures { states.new ≡ loop_sums loops.now (length loops.now) ++ drop (2 ^ length loops.now) states.old }
{
    states[0] = 0;
    let mut count = 1;
    for cycle in loops {
        double(states, count, *cycle);
        count += count;
    }
}

// All even edge sets of a record, ascending, go to the beginning of the list. The record is judged first.
pub fn su2_basis(c: SimplicialComplex, states: &mut [u64]) -> Result<usize, Refusal>
    ensures { Answered (su2_basis_call (complex_of c) states.old) (answer_of result) states.new }
{
    let f = accepted_loops(c)?;
    let count = 1 << f.count;
    if states.len() < count {
        return Err(Refusal::NoRoom);
    }
    write_masks(states, f.loops());
    Ok(count)
}
