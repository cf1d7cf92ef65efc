// The closing edges and loops of a record that is judged first.
ghost use Rattle.std.specs.Prelude.{◌≡◌, IfOk};
ghost use Rattle.mathematics.specs.Refusals.{first};
ghost use Rattle.answers.specs.Refusal.{judged};
ghost use Rattle.complex.specs.Complex.{complex_of};
ghost use Rattle.su2_masks.specs.Basis.{su2_tests};
ghost use Rattle.su2_masks.specs.Place.{FewLoops};

use acceptance::accept;
use answers::refusal::Refusal;
use complex::SimplicialComplex;
use su2_even_sets::{Forest, closing_loops};

// A list of states has at most 2 to this number.
const MOST_LOOPS: usize = 20;

// The closing edges of a record and their loops: 4, 7, 8 or 9 for a record that is not accepted, 10 for more than 20 loops.
#[tactic(auto, using(crate::proofs::LoopsTold::record_told, crate::proofs::LoopsTold::many_told, crate::proofs::LoopsTold::few_told, crate::proofs::LoopsTold::few_loops))]
pub fn accepted_loops(c: SimplicialComplex) -> Result<Forest, Refusal>
    ensures number { judged result ≡ first (su2_tests (complex_of c)) }
    ensures loops { IfOk result (FewLoops (complex_of c)) }
{
    accept(c)?;
    let f = closing_loops(c);
    if MOST_LOOPS < f.count {
        return Err(Refusal::ManyCandidates);
    }
    Ok(f)
}
