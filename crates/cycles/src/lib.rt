// The paths in the spanning tree and the fundamental cycles, as tables of rows of 63 signs.
#![tactic(auto)]

ghost use Rattle.std.specs.Prelude.{◌≡◌, ◌≢◌, ◌+◌, ◌*◌, ◌<◌, ◌≤◌, get_or, length, negsuc};
ghost use Rattle.std.proofs.Math.Seq.{paste};
ghost use Rattle.complex.specs.Complex.{Joins, entries, complex_of};
ghost use Rattle.complex.specs.Search.{across};
ghost use Rattle.complex.specs.Judge.{refusal};
ghost use Rattle.gauss_law.specs.Listing.{tree_edges, free_edges};
ghost use Rattle.gauss_law.specs.Spanning.{Spanned, FreeOf};
ghost use Rattle.cycles.specs.Cycles.{row, with_cycle, PathTable, extended, Subtractable, Differing, cycle_row, CycleTable};

use complex::SimplicialComplex;
use complex::search::SpanningTree;
use numbers::edge_list::EdgeList;
use numbers::sizes::{MOST_EDGES, MOST_VERTICES};

// The table of paths has a row for each vertex. Both tables are fixed memory with room for every record: there is no heap.
pub const PATH_ENTRIES: usize = MOST_VERTICES * MOST_EDGES;

// The table of cycles has a row for each free edge.
pub const CYCLE_ENTRIES: usize = MOST_EDGES * MOST_EDGES;

// One row of a table is copied to another.
fn copy_row(table: &mut [i8; PATH_ENTRIES], from: usize, to: usize, n_edges: usize)
    requires { (from < 64) × (to < 64) × (from ≢ to) × (n_edges ≤ 63) × (length table.old ≡ 4032) }
    ensures { table.new ≡ paste table.old (63 * to) (row n_edges table.old from) n_edges }
{
    let first = MOST_EDGES * from;
    table.copy_within(first..first + n_edges, MOST_EDGES * to);
}

// The row of the path to vertex v.
fn path_to(paths: &[i8; PATH_ENTRIES], v: usize, n_edges: usize) -> &[i8]
    requires { (v < 64) × (n_edges ≤ 63) × (length paths.now ≡ 4032) }
    ensures { result.now ≡ row n_edges paths.now v }
{
    let first = MOST_EDGES * v;
    &paths[first..first + n_edges]
}

// The path to vertex w: that to its parent, and edge e between them.
fn extend(paths: &mut [i8; PATH_ENTRIES], c: &SimplicialComplex, e: usize, w: usize)
    requires { (e < c.now.n_edges) × (c.now.n_edges ≤ 63) × (w < 64) × (across (entries c.now.edges (2 * e) 2) w < 64) × (across (entries c.now.edges (2 * e) 2) w ≢ w) × Joins (entries c.now.edges (2 * e) 2) w (across (entries c.now.edges (2 * e) 2) w) × (length paths.old ≡ 4032) }
    ensures { paths.new ≡ extended paths.old c.now.n_edges (entries c.now.edges (2 * e) 2) e w }
{
    let parent = c.across(e, w);
    copy_row(paths, parent, w, c.n_edges);
    paths[MOST_EDGES * w + e] = c.direction(e, parent);
}

// The paths to all vertices.
pub fn tree_paths(c: SimplicialComplex, tree: SpanningTree) -> [i8; PATH_ENTRIES]
    requires { Spanned c tree }
    ensures { PathTable (complex_of c) (length (tree_edges (complex_of c))) result }
{
    let mut paths = [0i8; PATH_ENTRIES];
    let steps = tree.tree_edges[..tree.found].iter().zip(&tree.queue[1..]);
    for (e, w) in steps {
        extend(&mut paths, &c, usize::from(*e), usize::from(*w));
    }
    paths
}

// A path less another goes to a row. By number: a proof knows nothing of what a loop over a zip with iter_mut wrote.
fn subtract_paths(row: &mut [i8], first: &[i8], second: &[i8])
    requires { Differing (length row.old) first.now second.now }
    ensures { row.new ≡ with_cycle first.now (negsuc 0) second.now }
{
    for (e, x) in row.iter_mut().enumerate() {
        *x = first[e] - second[e];
    }
}

// The cycle of edge f goes to row j.
fn close_cycle(
    cycles: &mut [i8; CYCLE_ENTRIES],
    j: usize,
    paths: &[i8; PATH_ENTRIES],
    c: &SimplicialComplex,
    f: usize,
)
    requires { (j < 63) × (f < c.now.n_edges) × Subtractable paths.now (get_or c.now.edges (2 * f) 0) (get_or c.now.edges (2 * f + 1) 0) c.now.n_edges × (length cycles.old ≡ 3969) }
    ensures { cycles.new ≡ cycle_row cycles.old j paths.now c.now.n_edges (entries c.now.edges (2 * f) 2) f }
{
    let (a, b) = c.edge(f);
    let at = MOST_EDGES * j;
    let row = &mut cycles[at..at + c.n_edges];
    subtract_paths(
        row,
        path_to(paths, a, c.n_edges),
        path_to(paths, b, c.n_edges),
    );
    cycles[at + f] = 1;
}

// The fundamental cycles of all free edges.
pub fn fundamental_cycles(
    c: SimplicialComplex,
    paths: &[i8; PATH_ENTRIES],
    free: EdgeList,
) -> [i8; CYCLE_ENTRIES]
    requires { (refusal (complex_of c) ≡ 0) × PathTable (complex_of c) (length (tree_edges (complex_of c))) paths.now × FreeOf (complex_of c) free }
    ensures { CycleTable (complex_of c) (length (free_edges (complex_of c))) result }
{
    let mut cycles = [0i8; CYCLE_ENTRIES];
    for (j, f) in free.as_slice().iter().enumerate() {
        close_cycle(&mut cycles, j, paths, &c, usize::from(*f));
    }
    cycles
}
