// A sheet from flat lists of pairs and triples.
#![tactic(auto)]

ghost use Rattle.std.specs.Prelude.{◌≡◌};
ghost use Rattle.mathematics.specs.Refusals.{first};
ghost use Rattle.mathematics.specs.Calls.{Answered};
ghost use Rattle.answers.specs.Refusal.{answer_of, judged};
ghost use Rattle.complex.specs.Complex.{complex_of};
ghost use Rattle.making.specs.Making.{flat_complex, size_tests, making_call, Sizes};

use acceptance::counts_right;
use answers::refusal::Refusal;
use complex::SimplicialComplex;
use numbers::sizes::LARGEST_TRUNCATION;
use sheet::{Sheet, padded, write_sheet};

// What the numbers and the lengths of flat lists say: the first of 4 to 6 that refuses them.
#[tactic(auto, using(crate::proofs::Makings::counts_told, crate::proofs::Makings::truncation_told, crate::proofs::Makings::lengths_told, crate::proofs::Makings::sizes_told))]
fn judge_sizes(
    n_vertices: usize,
    edges: &[u8],
    triangles: &[u8],
    lambda: usize,
) -> Result<(), Refusal>
    ensures { judged result ≡ first (size_tests n_vertices edges.now triangles.now lambda) }
{
    if !counts_right(n_vertices, edges.len() / 2, triangles.len() / 3) {
        return Err(Refusal::WrongCounts);
    }
    if LARGEST_TRUNCATION < lambda {
        return Err(Refusal::LargeTruncation);
    }
    if edges.len() % 2 != 0 || triangles.len() % 3 != 0 {
        return Err(Refusal::WrongLength);
    }
    Ok(())
}

// The sheet of flat lists of the right sizes.
#[tactic(auto, using(crate::proofs::Makings::edges_fit, crate::proofs::Makings::triangles_fit))]
fn sheet_of(n_vertices: usize, edges: &[u8], triangles: &[u8], lambda: usize) -> Sheet
    requires { Sizes n_vertices edges.now triangles.now }
    ensures { (complex_of result.complex ≡ flat_complex n_vertices edges.now triangles.now) × (result.lambda ≡ lambda) }
{
    let complex = SimplicialComplex {
        n_vertices,
        n_edges: edges.len() / 2,
        edges: padded(edges),
        n_triangles: triangles.len() / 3,
        triangles: padded(triangles),
    };
    Sheet { complex, lambda }
}

// Writes the sheet of flat pairs and triples: the number of bytes, or the first of 4 to 9 and 15 that refuses it.
pub fn make_sheet(
    n_vertices: usize,
    edges: &[u8],
    triangles: &[u8],
    lambda: usize,
    out: &mut [u8],
) -> Result<usize, Refusal>
    ensures { Answered (making_call n_vertices edges.now triangles.now lambda out.old) (answer_of result) out.new }
{
    judge_sizes(n_vertices, edges, triangles, lambda)?;
    write_sheet(sheet_of(n_vertices, edges, triangles, lambda), out)
}
