// How many even edge sets a complex has.
ghost use Rattle.mathematics.specs.Calls.{Answered, none_lent};
ghost use Rattle.answers.specs.Refusal.{answer_of};
ghost use Rattle.complex.specs.Complex.{complex_of};
ghost use Rattle.su2_masks.specs.Basis.{su2_counted_call};

use crate::accepted::accepted_loops;
use answers::refusal::Refusal;
use complex::SimplicialComplex;

// How many even edge sets a record has, without a list of them. The record is judged first.
pub fn su2_count_states(c: SimplicialComplex) -> Result<usize, Refusal>
    ensures { Answered (su2_counted_call (complex_of c)) (answer_of result) none_lent }
{
    let f = accepted_loops(c)?;
    Ok(1 << f.count)
}
