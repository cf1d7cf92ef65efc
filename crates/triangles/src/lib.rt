// The edges of a triangle.
#![tactic(auto)]

ghost use Rattle.std.specs.Prelude.{◌≡◌, [], ◌∷◌, ◌*◌, ◌<◌};
ghost use Rattle.complex.specs.Complex.{entries, complex_of};
ghost use Rattle.complex.specs.Judge.{refusal};
ghost use Rattle.complex.specs.Numbering.{EdgeTable};
ghost use Rattle.complex.specs.Sides.{sides};
ghost use Rattle.mathematics.specs.Calls.{Answered, none_lent};
ghost use Rattle.triangles.specs.Indices.{indices_answer, indices_call, AllSides, Sided, sides_in, with_sides};

use acceptance::{accept_indexed, edge_number, index_edges};
use answers::refusal::Refusal;
use complex::SimplicialComplex;

// The numbers of the edges (a, b), (a, c) and (b, c) of a triangle (a, b, c).
#[derive(Clone, Copy)]
pub struct Sides {
    pub first: usize,
    pub second: usize,
    pub third: usize,
}

// The edges of triangle t by the index of the edges, which is fixed memory: there is no heap.
pub fn sides_of(c: &SimplicialComplex, table: &[u8; 4096], t: usize) -> Sides
    requires { (t < 256) × Sided table.now (entries c.now.triangles (3 * t) 3) }
    ensures { result ≡ sides_in table.now (entries c.now.triangles (3 * t) 3) }
{
    let (i, j, k) = c.triangle(t);
    Sides {
        first: edge_number(table, i, j) - 1,
        second: edge_number(table, i, k) - 1,
        third: edge_number(table, j, k) - 1,
    }
}

// The index of the edges of an accepted record.
fn edge_table(c: SimplicialComplex) -> [u8; 4096]
    requires { refusal (complex_of c) ≡ 0 }
    ensures { EdgeTable result (complex_of c).edges }
{
    let mut table = [0u8; 4096];
    index_edges(&c, &mut table);
    table
}

// The edges of a triangle of an accepted record, which is not judged again.
pub fn triangle_sides(c: SimplicialComplex, triangle: usize) -> Sides
    requires { (refusal (complex_of c) ≡ 0) × (triangle < c.n_triangles) }
    ensures { sides (complex_of c) triangle ≡ result.first ∷ result.second ∷ result.third ∷ [] }
{
    let table = edge_table(c);
    sides_of(&c, &table, triangle)
}

// The edges of triangle t go to its places in a list. The list is fixed memory with room for every triangle, here and below: there is no heap.
fn write_sides(all: &mut [u8; 768], t: usize, s: Sides)
    requires { (t < 256) × (s.first < 256) × (s.second < 256) × (s.third < 256) }
    ensures { all.new ≡ with_sides all.old t s }
{
    all[3 * t] = s.first as u8;
    all[3 * t + 1] = s.second as u8;
    all[3 * t + 2] = s.third as u8;
}

// The edges of all triangles of an accepted record, which is not judged again: those of triangle t from place 3t on. By number: the
// number is the place, and `sides_of` is asked by number where one triangle is wanted.
pub fn all_sides(c: SimplicialComplex) -> [u8; 768]
    requires { refusal (complex_of c) ≡ 0 }
    ensures { AllSides (complex_of c) result }
{
    let table = edge_table(c);
    let mut all = [0u8; 768];
    for t in 0..c.n_triangles {
        write_sides(&mut all, t, sides_of(&c, &table, t));
    }
    all
}

// The edges of triangle t by the list of all.
pub fn sides_at(all: &[u8; 768], t: usize) -> Sides
    requires { t < 256 }
    ensures { entries all.now (3 * t) 3 ≡ result.first ∷ result.second ∷ result.third ∷ [] }
{
    Sides {
        first: usize::from(all[3 * t]),
        second: usize::from(all[3 * t + 1]),
        third: usize::from(all[3 * t + 2]),
    }
}

// The edges of a triangle of a record, which is judged first.
pub fn tri_edge_indices(c: SimplicialComplex, triangle: usize) -> Result<Sides, Refusal>
    ensures { Answered (indices_call (complex_of c) triangle) (indices_answer result) none_lent }
{
    let mut table = [0u8; 4096];
    accept_indexed(c, &mut table)?;
    if c.n_triangles <= triangle {
        return Err(Refusal::OutOfRange);
    }
    Ok(sides_of(&c, &table, triangle))
}
