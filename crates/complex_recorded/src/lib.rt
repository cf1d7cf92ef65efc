// The calls on complexes, sheets, trees, loops and row lists, held against recorded answers: the number that each tells and the lists that it leaves.
// Functions differ in the call and in its lists, and take what was recorded of it. One for several would take the call as a closure over lent lists,
// with a contract that is longer than these bodies.
#![tactic(auto)]

pub mod complex_cases;
pub mod row_cases;

ghost use Rattle.std.specs.Prelude.{◌≡◌};
ghost use Rattle.complex_recorded.specs.Agreement.{pentachora_agrees, indices_agrees, tree_agrees, loops_agrees, su2_loops_agrees, matvec_agrees};

use complex_exports::{
    export_from_pentachorons, export_fundamental_loops, export_spanning_tree,
    export_su2_fundamental_loops, export_tri_edge_indices,
};
use numbers::sizes::{EDGE_ENTRIES, TRIANGLE_ENTRIES};
use recorded::list::same;
use rows_exports::export_matvec;

#[tactic(auto, using(recorded::proofs::Agreeing::agrees_by), unfolding(crate::specs::Agreement::pentachora_agrees))]
pub fn from_pentachorons_same(
    n_vertices: u64,
    pentachora: &[u64],
    told: i64,
    edges: &[u8],
    triangles: &[u8],
    n_triangles: &[u8],
) -> bool
    ensures { result ≡ pentachora_agrees n_vertices pentachora.now told edges.now triangles.now n_triangles.now }
{
    let mut made_edges = [0u8; EDGE_ENTRIES];
    let mut made_triangles = [0u8; TRIANGLE_ENTRIES];
    let mut counted = 0u64;
    let answer = export_from_pentachorons(
        n_vertices,
        pentachora,
        &mut made_edges,
        &mut made_triangles,
        &mut counted,
    );
    (answer == told)
        & (same(&made_edges, edges)
            & (same(&made_triangles, triangles) & same(&[counted], n_triangles)))
}

#[tactic(auto, using(recorded::proofs::Agreeing::agrees_by), unfolding(crate::specs::Agreement::indices_agrees))]
pub fn tri_edge_indices_same(sheet: &[u8], triangle: u64, told: i64, indices: &[u8]) -> bool
    ensures { result ≡ indices_agrees sheet.now triangle told indices.now }
{
    let mut found = [0u64; 3];
    let answer = export_tri_edge_indices(sheet, triangle, &mut found);
    (answer == told) & same(&found, indices)
}

#[tactic(auto, using(recorded::proofs::Agreeing::agrees_by), unfolding(crate::specs::Agreement::tree_agrees))]
pub fn spanning_tree_same(sheet: &[u8], told: i64, tree: &[u8], free: &[u8]) -> bool
    ensures { result ≡ tree_agrees sheet.now told tree.now free.now }
{
    let mut made_tree = [0u32; 64];
    let mut made_free = [0u32; 64];
    let answer = export_spanning_tree(sheet, &mut made_tree, &mut made_free);
    (answer == told) & (same(&made_tree, tree) & same(&made_free, free))
}

#[tactic(auto, using(recorded::proofs::Agreeing::agrees_by), unfolding(crate::specs::Agreement::loops_agrees))]
pub fn fundamental_loops_same(
    sheet: &[u8],
    told: i64,
    starts: &[u8],
    edges: &[u8],
    directions: &[u8],
) -> bool
    ensures { result ≡ loops_agrees sheet.now told starts.now edges.now directions.now }
{
    let mut made_starts = [0u32; 64];
    let mut made_edges = [0u8; 1024];
    let mut made_directions = [0i8; 1024];
    let answer = export_fundamental_loops(
        sheet,
        &mut made_starts,
        &mut made_edges,
        &mut made_directions,
    );
    (answer == told)
        & (same(&made_starts, starts)
            & (same(&made_edges, edges) & same(&made_directions, directions)))
}

#[tactic(auto, using(recorded::proofs::Agreeing::agrees_by), unfolding(crate::specs::Agreement::su2_loops_agrees))]
pub fn su2_fundamental_loops_same(sheet: &[u8], told: i64, starts: &[u8], edges: &[u8]) -> bool
    ensures { result ≡ su2_loops_agrees sheet.now told starts.now edges.now }
{
    let mut made_starts = [0u32; 64];
    let mut made_edges = [0u8; 1024];
    let answer = export_su2_fundamental_loops(sheet, &mut made_starts, &mut made_edges);
    (answer == told) & (same(&made_starts, starts) & same(&made_edges, edges))
}

#[tactic(auto, using(recorded::proofs::Agreeing::agrees_by), unfolding(crate::specs::Agreement::matvec_agrees))]
pub fn matvec_same(
    starts: &[u32],
    columns: &[u32],
    values: &[f64],
    vector: &[f64],
    told: i64,
    product: &[u8],
) -> bool
    ensures { result ≡ matvec_agrees starts.now columns.now values.now vector.now told product.now }
{
    let mut result = [0.0f64; 256];
    let answer = export_matvec(starts, columns, values, vector, &mut result);
    (answer == told) & same(&result, product)
}
