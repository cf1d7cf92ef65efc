// How many states a complex has.
ghost use Rattle.mathematics.specs.Calls.{Answered, none_lent};
ghost use Rattle.answers.specs.Refusal.{answer_of};
ghost use Rattle.complex.specs.Complex.{complex_of};
ghost use Rattle.enumeration.specs.Enumeration.{counted_call};

use crate::basis::Basis;
use answers::refusal::Refusal;
use complex::SimplicialComplex;

// How many states a record has within -lambda to lambda, without a list of them. The record is judged first.
pub fn count_states(c: SimplicialComplex, lambda: usize) -> Result<usize, Refusal>
    ensures { Answered (counted_call (complex_of c) lambda) (answer_of result) none_lent }
{
    let basis = Basis::prepare(c, lambda)?;
    Ok(basis.count())
}
