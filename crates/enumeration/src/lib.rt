// The list of all states of a complex.
#![tactic(auto)]

pub mod basis;
pub mod count;

ghost use Rattle.std.specs.Prelude.{◌≡◌, ◌+◌, ◌*◌, ◌-◌, ◌^◌, ◌≤◌, ltb};
ghost use Rattle.complex.specs.Complex.{complex_of};
ghost use Rattle.mathematics.specs.Calls.{Answered};
ghost use Rattle.answers.specs.Refusal.{answer_of};
ghost use Rattle.enumeration.specs.Enumeration.{Limited, enumerated_call, ListingDemand};

use crate::basis::Basis;
use answers::refusal::Refusal;
use complex::SimplicialComplex;
use numbers::sizes::MOST_CANDIDATES;

// A power, or any number above the limit where the power is above it. Multiplied out here: the library's powers take a u32, and an exponent
// may be any number.
fn power(base: usize, exponent: usize) -> usize
    requires { (1 ≤ base) × (base ≤ 2001) }
    ensures { Limited (base ^ exponent) result }
{
    let mut product = 1;
    for _ in 0..exponent {
        if product <= MOST_CANDIDATES {
            product *= base;
        }
    }
    product
}

// Whether the candidates are over the limit.
#[tactic(auto, using(crate::proofs::Limits::limited_test))]
pub fn too_many(n_free: usize, lambda: usize) -> bool
    requires { lambda ≤ 1000 }
    ensures { result ≡ ltb 1048576 ((2 * lambda + 1) ^ n_free) }
{
    MOST_CANDIDATES < power(2 * lambda + 1, n_free)
}

// The number of blocks, where all candidates are within the limit.
pub fn count_of_blocks(n_free: usize, lambda: usize) -> usize
    requires { (lambda ≤ 1000) × ((2 * lambda + 1) ^ n_free ≤ 1048576) }
    ensures { result ≡ (2 * lambda + 1) ^ (n_free - 1) }
{
    if n_free == 0 {
        return 1;
    }
    power(2 * lambda + 1, n_free - 1)
}

// All states of a record within -lambda to lambda go to the beginning of the list. The record is judged first.
pub fn enumerate_gauge_invariant(
    c: SimplicialComplex,
    lambda: usize,
    states: &mut [i32],
) -> Result<usize, Refusal>
    ensures answered { Answered (enumerated_call (complex_of c) lambda states.old) (answer_of result) states.new }
    ensures listing_demand { ListingDemand (complex_of c) lambda states.old states.new (answer_of result) }
{
    let basis = Basis::prepare(c, lambda)?;
    if basis.is_too_short(states.len()) {
        return Err(Refusal::NoRoom);
    }
    Ok(basis.write(states))
}
