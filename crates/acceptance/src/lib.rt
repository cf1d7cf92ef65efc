// The one judge of a record: 4, 7, 8, 9, or accepted.
#![tactic(auto)]

ghost use Rattle.std.specs.Prelude.{◌≡◌, List, [], ◌∷◌, ◌++◌, map, ◌&&◌, ℕ, ◌+◌, ◌*◌, ◌<◌, ◌≤◌, get_or, replicate, eqb};
ghost use Rattle.mathematics.specs.Lists.{distinct};
ghost use Rattle.mathematics.specs.Tests.{every_entry};
ghost use Rattle.complex.specs.Complex.{Simplex, entries, simplices, complex_of};
ghost use Rattle.mathematics.specs.Refusals.{first};
ghost use Rattle.complex.specs.Judge.{counts_right, rising, sides_listed, refusal, truncated_tests};
ghost use Rattle.complex.specs.Numbering.{key, triangle_key, Keyed, EdgeTable, Judged};
ghost use Rattle.acceptance.specs.Once.{EdgesIndexed, Marked};
ghost use Rattle.answers.specs.Refusal.{judged};

use answers::refusal::Refusal;
use complex::SimplicialComplex;
use complex::search::connected;
use numbers::sizes::{LARGEST_TRUNCATION, MOST_EDGES, MOST_TRIANGLES, MOST_VERTICES};

// Whether every edge rises to a vertex of the record.
fn edges_rise(c: &SimplicialComplex) -> bool
    requires { c.now.n_edges ≤ 63 }
    ensures { result ≡ every_entry (rising c.now.n_vertices) (simplices 2 c.now.edges c.now.n_edges) }
{
    let mut so_far = true;
    for &[a, b] in c.edge_pairs() {
        so_far &= (a < b) & (usize::from(b) < c.n_vertices);
    }
    so_far
}

// Whether no edge is listed twice; then the table is Rust's edge_index. Once one is, the table says nothing. It is
// fixed memory with an entry for each key, here and below.
pub fn index_edges(c: &SimplicialComplex, table: &mut [u8; 4096]) -> bool
    requires { (c.now.n_edges ≤ 63) × (table.old ≡ replicate 4096 0) × ((e : ℕ) → e < c.now.n_edges → (get_or c.now.edges (2 * e) 0 < 64) × (get_or c.now.edges (2 * e + 1) 0 < 64)) }
    ensures { EdgesIndexed table.new result (simplices 2 c.now.edges c.now.n_edges) }
{
    let mut so_far = true;
    for (e, &[a, b]) in c.edge_pairs().iter().enumerate() {
        let key = 64 * usize::from(a) + usize::from(b);
        so_far &= table[key] == 0;
        table[key] = (e + 1) as u8;
    }
    so_far
}

// The number of edge (a, b), counted from 1; 0 where it is not listed.
pub fn edge_number(table: &[u8; 4096], a: usize, b: usize) -> usize
    requires { (a < 64) × (b < 64) }
    ensures { result ≡ get_or table.now (64 * a + b) 0 }
{
    usize::from(table[64 * a + b])
}

// Whether a triangle rises and its three edges are listed.
fn triangle_fits(c: &SimplicialComplex, table: &[u8; 4096], t: usize) -> bool
    requires { (t < 256) × (c.now.n_vertices ≤ 64) }
    ensures { (es : List Simplex) → EdgeTable table.now es → result ≡ (rising c.now.n_vertices (entries c.now.triangles (3 * t) 3) && sides_listed es (entries c.now.triangles (3 * t) 3)) }
{
    let (x, y, z) = c.triangle(t);
    if y <= x || z <= y || c.n_vertices <= z {
        return false;
    }
    (edge_number(table, x, y) != 0)
        & ((edge_number(table, x, z) != 0) & (edge_number(table, y, z) != 0))
}

// Whether every triangle fits. By number, here and below: a triangle's vertices are places in the table, and `triangle` reads them as such.
// Over a list of triples each would be converted in both functions.
fn triangles_fit(c: &SimplicialComplex, table: &[u8; 4096]) -> bool
    requires { (c.now.n_triangles ≤ 256) × (c.now.n_vertices ≤ 64) }
    ensures { (es : List Simplex) → EdgeTable table.now es → result ≡ every_entry (λ s. rising c.now.n_vertices s && sides_listed es s) (simplices 3 c.now.triangles c.now.n_triangles) }
{
    let mut so_far = true;
    for t in 0..c.n_triangles {
        so_far &= triangle_fits(c, table, t);
    }
    so_far
}

fn triangle_key(c: &SimplicialComplex, table: &[u8; 4096], t: usize) -> usize
    requires { (t < 256) × Keyed table.now (entries c.now.triangles (3 * t) 3) }
    ensures { (result ≡ triangle_key table.now (entries c.now.triangles (3 * t) 3)) × (result < 4096) }
{
    let (x, y, z) = c.triangle(t);
    64 * (edge_number(table, x, y) - 1) + z
}

// One key more goes into the set of bits: whether no key so far came twice. Once one has, the bits say nothing.
fn mark(seen: &mut [u64; 64], key: usize, so_far: bool) -> bool
    requires { key < 4096 }
    ensures { (keys : List ℕ) → Marked seen.old so_far keys → Marked seen.new result (keys ++ (key ∷ [])) }
{
    let i = key / 64;
    let bit = key % 64;
    let old = seen[i];
    seen[i] = old ^ (1 << bit);
    so_far & ((old >> bit) % 2 == 0)
}

// Whether no triangle is listed twice.
fn triangles_once(c: &SimplicialComplex, table: &[u8; 4096]) -> bool
    requires { (c.now.n_triangles ≤ 256) × ((i : ℕ) → i < c.now.n_triangles → Keyed table.now (entries c.now.triangles (3 * i) 3)) }
    ensures { result ≡ distinct eqb (map (triangle_key table.now) (simplices 3 c.now.triangles c.now.n_triangles)) }
{
    let mut seen = [0u64; 64];
    let mut so_far = true;
    for t in 0..c.n_triangles {
        so_far = mark(&mut seen, triangle_key(c, table, t), so_far);
    }
    so_far
}

#[tactic(auto, unfolding(complex::specs::Judge::counts_right))]
pub fn counts_right(n: usize, m: usize, t: usize) -> bool
    ensures { result ≡ counts_right n m t }
{
    (((1 <= n) & (n <= MOST_VERTICES)) & (m <= MOST_EDGES)) & (t <= MOST_TRIANGLES)
}

// Whether a record is accepted, or the first of 4, 7, 8 and 9 that refuses it. A table of zeros becomes the index of the edges of a record
// that is accepted.
pub fn accept_indexed(c: SimplicialComplex, table: &mut [u8; 4096]) -> Result<(), Refusal>
    requires { table.old ≡ replicate 4096 0 }
    ensures { Judged c table.new (judged result) }
{
    if !counts_right(c.n_vertices, c.n_edges, c.n_triangles) {
        return Err(Refusal::WrongCounts);
    }
    if !edges_rise(&c) {
        return Err(Refusal::WrongEdge);
    }
    if !index_edges(&c, table) {
        return Err(Refusal::WrongEdge);
    }
    if !triangles_fit(&c, table) {
        return Err(Refusal::WrongTriangle);
    }
    if !triangles_once(&c, table) {
        return Err(Refusal::WrongTriangle);
    }
    if !connected(&c) {
        return Err(Refusal::Disconnected);
    }
    Ok(())
}

// The same without the index.
pub fn accept(c: SimplicialComplex) -> Result<(), Refusal>
    ensures { judged result ≡ refusal (complex_of c) }
{
    accept_indexed(c, &mut [0u8; 4096])
}

// The same of a record and a truncation: 5 has its place between 4 and 7.
#[tactic(auto, using(crate::proofs::Truncation::counts_told, crate::proofs::Truncation::truncation_told, crate::proofs::Truncation::shape_told))]
pub fn accept_truncated(c: SimplicialComplex, lambda: usize) -> Result<(), Refusal>
    ensures { judged result ≡ first (truncated_tests (complex_of c) lambda) }
{
    if !counts_right(c.n_vertices, c.n_edges, c.n_triangles) {
        return Err(Refusal::WrongCounts);
    }
    if LARGEST_TRUNCATION < lambda {
        return Err(Refusal::LargeTruncation);
    }
    accept(c)
}
