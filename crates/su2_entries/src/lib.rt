// How many entries the row lists of the two-valued truncation of SU(2) have.
#![tactic(auto)]

ghost use Rattle.mathematics.specs.Calls.{Answered, none_lent};
ghost use Rattle.answers.specs.Refusal.{answer_of};
ghost use Rattle.complex.specs.Complex.{complex_of};
ghost use Rattle.su2_entries.specs.Entries.{su2_entries_call};

use answers::refusal::Refusal;
use complex::SimplicialComplex;
use su2_masks::accepted::accepted_loops;
use su2_rows::build::entries_number;

// How many entries the row lists of a record have, whatever the coupling and the weights are. The record is judged first.
pub fn su2_count_entries(c: SimplicialComplex) -> Result<usize, Refusal>
    ensures { Answered (su2_entries_call (complex_of c)) (answer_of result) none_lent }
{
    let f = accepted_loops(c)?;
    let n = 1 << f.count;
    Ok(entries_number(c.n_triangles, n))
}
