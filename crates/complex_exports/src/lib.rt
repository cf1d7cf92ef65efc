// What the exported functions on complexes, sheets and the refusals' sentences do.
#![tactic(auto)]

ghost use Rattle.triangles.specs.Indices.{indices_call};
ghost use Rattle.pentachora.specs.Pentachora.{pentachora_call};
ghost use Rattle.sheet.specs.Sheet.{reading_call};
ghost use Rattle.making.specs.Making.{making_call};
ghost use Rattle.gauss_law.specs.Spanning.{tree_call};
ghost use Rattle.loops.specs.Loops.{loops_call, su2_loops_call};
ghost use Rattle.refusals.specs.Sentences.{text_call};
ghost use Rattle.exports.specs.Exports.{on_sheet, stored, second_lent, in_place, Exported};
ghost use Rattle.complex_exports.specs.Parts.{sheet_parts};

use answers::refusal::Refusal;
use exports::{signed_refusal, signed_result, value};
use gauss_law::spanning::spanning_tree;
use loops::fundamental::{fundamental_loops, su2_fundamental_loops};
use making::make_sheet;
use pentachora::from_pentachorons;
use refusals::refusal_text;
use sheet::read_sheet;
use triangles::triangle_sides;

// The sheet of flat pairs and triples: the number of its bytes.
#[tactic(auto, using(exports::proofs::Signs::told))]
pub fn export_make_sheet(
    n_vertices: u64,
    edges: &[u8],
    triangles: &[u8],
    lambda: u64,
    sheet: &mut [u8],
) -> i64
    ensures { Exported (making_call n_vertices edges.now triangles.now lambda sheet.old) result sheet.new }
{
    signed_result(make_sheet(
        n_vertices as usize,
        edges,
        triangles,
        lambda as usize,
        sheet,
    ))
}

// What a sheet holds: 0. Entries of the lists beyond its edges and triangles stay. Each number has its own place: the C interface.
#[tactic(auto, using(exports::proofs::OnSheets::few_edges_read, exports::proofs::OnSheets::few_triangles_read))]
pub fn export_read_sheet(
    sheet: &[u8],
    n_vertices: &mut u64,
    n_edges: &mut u64,
    n_triangles: &mut u64,
    lambda: &mut u64,
    edges: &mut [u8; 126],
    triangles: &mut [u8; 768],
) -> i64
    ensures { Exported (stored (reading_call sheet.now) sheet_parts (n_vertices.old, n_edges.old, n_triangles.old, lambda.old, edges.old, triangles.old)) result (n_vertices.new, n_edges.new, n_triangles.new, lambda.new, edges.new, triangles.new) }
{
    match read_sheet(sheet) {
        Ok(s) => {
            let c = s.complex;
            *n_vertices = c.n_vertices as u64;
            *n_edges = c.n_edges as u64;
            *n_triangles = c.n_triangles as u64;
            *lambda = s.lambda as u64;
            edges[..2 * c.n_edges].copy_from_slice(&c.edges[..2 * c.n_edges]);
            triangles[..3 * c.n_triangles].copy_from_slice(&c.triangles[..3 * c.n_triangles]);
            0
        }
        Err(refusal) => signed_refusal(refusal),
    }
}

// The edge numbers of a triangle of a sheet: 0. Here and above the lists of fixed length are the C interface's.
pub fn export_tri_edge_indices(sheet: &[u8], triangle: u64, indices: &mut [u64; 3]) -> i64
    ensures { Exported (on_sheet sheet.now (λ c L. stored (indices_call c triangle) in_place indices.old)) result indices.new }
{
    match read_sheet(sheet) {
        Ok(s) => {
            let t = triangle as usize;
            if s.complex.n_triangles <= t {
                return signed_refusal(Refusal::OutOfRange);
            }
            let found = triangle_sides(s.complex, t);
            *indices = [found.first as u64, found.second as u64, found.third as u64];
            0
        }
        Err(refusal) => signed_refusal(refusal),
    }
}

// The edges and triangles of pentachora: the number of edges.
pub fn export_from_pentachorons(
    n_vertices: u64,
    pentachora: &[u64],
    edges: &mut [u8],
    triangles: &mut [u8],
    n_triangles: &mut u64,
) -> i64
    ensures { Exported (second_lent (pentachora_call n_vertices pentachora.now edges.old triangles.old) n_triangles.old) result (edges.new, triangles.new, n_triangles.new) }
{
    match from_pentachorons(n_vertices as usize, pentachora, edges, triangles) {
        Ok((n_edges, count)) => {
            *n_triangles = count as u64;
            value(n_edges)
        }
        Err(refusal) => signed_refusal(refusal),
    }
}

// The tree edges and the free edges of a sheet's complex: the number of free edges. This and the next two have one shape: each exported name is
// a function of its own, and a proof loses what a closure wrote to the lent lists.
#[tactic(auto, using(crate::proofs::Small::tree_small))]
pub fn export_spanning_tree(sheet: &[u8], tree: &mut [u32], free: &mut [u32]) -> i64
    ensures { Exported (on_sheet sheet.now (λ c L. tree_call c tree.old free.old)) result (tree.new, free.new) }
{
    match read_sheet(sheet) {
        Ok(s) => signed_result(spanning_tree(s.complex, tree, free)),
        Err(refusal) => signed_refusal(refusal),
    }
}

// The fundamental loops of a sheet's complex: how many there are.
#[tactic(auto, using(crate::proofs::Small::loops_small))]
pub fn export_fundamental_loops(
    sheet: &[u8],
    starts: &mut [u32],
    edges: &mut [u8],
    directions: &mut [i8],
) -> i64
    ensures { Exported (on_sheet sheet.now (λ c L. loops_call c starts.old edges.old directions.old)) result (starts.new, edges.new, directions.new) }
{
    match read_sheet(sheet) {
        Ok(s) => signed_result(fundamental_loops(s.complex, starts, edges, directions)),
        Err(refusal) => signed_refusal(refusal),
    }
}

// The same without directions.
#[tactic(auto, using(crate::proofs::Small::su2_loops_small))]
pub fn export_su2_fundamental_loops(sheet: &[u8], starts: &mut [u32], edges: &mut [u8]) -> i64
    ensures { Exported (on_sheet sheet.now (λ c L. su2_loops_call c starts.old edges.old)) result (starts.new, edges.new) }
{
    match read_sheet(sheet) {
        Ok(s) => signed_result(su2_fundamental_loops(s.complex, starts, edges)),
        Err(refusal) => signed_refusal(refusal),
    }
}

// The sentence of a refusal: the number of its bytes.
#[tactic(auto, using(exports::proofs::Signs::told, crate::proofs::Small::text_small))]
pub fn export_refusal_text(number: u64, text: &mut [u8]) -> i64
    ensures { Exported (text_call number text.old) result text.new }
{
    signed_result(refusal_text(number as usize, text))
}
