// How many entries the row lists of U(1) have.
#![tactic(auto)]

pub mod count;

ghost use Rattle.mathematics.specs.Calls.{Answered, none_lent};
ghost use Rattle.answers.specs.Refusal.{answer_of};
ghost use Rattle.complex.specs.Complex.{complex_of};
ghost use Rattle.entries.specs.Entries.{entries_call};

use crate::count::count_rows;
use answers::refusal::Refusal;
use complex::SimplicialComplex;
use enumeration::basis::Basis;
use triangles::all_sides;

// How many entries the row lists of a record have, whatever the coupling and the weights are. The record is judged first.
pub fn count_entries(c: SimplicialComplex, lambda: usize) -> Result<usize, Refusal>
    ensures { Answered (entries_call (complex_of c) lambda) (answer_of result) none_lent }
{
    let basis = Basis::prepare(c, lambda)?;
    let all = all_sides(c);
    Ok(count_rows(&basis, &all, c.n_triangles))
}
