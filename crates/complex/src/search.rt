// The breadth-first search from vertex 0 over the edges of a record. Half-edge d is the end of edge d / 2 that stands at place d of the
// flat list.
ghost use Rattle.std.specs.Prelude.{◌≡◌, ℕ, ◌*◌, ◌/◌, ◌<◌, ◌≤◌, get_or, length};
ghost use Rattle.complex.specs.Complex.{simplices};
ghost use Rattle.complex.specs.Search.{look, scan, serve, whole_search, connected};
ghost use Rattle.complex.specs.Tree.{opposite, Linked, search_of, Searchable, Fits, Searched};

use crate::SimplicialComplex;
use numbers::sizes::{EDGE_ENTRIES, MOST_EDGES, MOST_VERTICES};

// How far a search is: the found + 1 vertices seen stand first in the queue, tree_edges[i] led to queue[i + 1], and visited[v] is 1
// where v was seen, else 0. These are numbers and no bools, for the definition of a kept search (`Fits`, specs/Tree) has them so. The lists
// are fixed memory: there is no heap.
#[derive(Clone, Copy)]
pub struct SpanningTree {
    pub queue: [u8; MOST_VERTICES],
    pub found: usize,
    pub tree_edges: [u8; MOST_EDGES],
    pub visited: [u8; MOST_VERTICES],
}

// The half-edges at a vertex are linked by rising number, so that an edge is looked at no more than once from each of its ends:
// heads[v] is the first at v, next[d] the next at the vertex of d, and the number of half-edges says that there is none.
#[derive(Clone, Copy)]
struct HalfEdges {
    heads: [u8; MOST_VERTICES],
    next: [u8; EDGE_ENTRIES],
}

// The half-edge at the other end of the edge of half-edge d.
fn opposite(d: usize) -> usize
    requires { d < 126 }
    ensures { result ≡ opposite d }
{
    d + 1 - 2 * (d % 2)
}

// The half-edges are linked, from the last to the first: each stands before the later ones at its vertex. By number: the links are the
// numbers.
fn half_edges(edges: &[u8]) -> HalfEdges
    requires { (length edges.now ≤ 126) × ((d : ℕ) → d < length edges.now → get_or edges.now d 0 < 64) }
    ensures { Linked edges.now (length edges.now) result.heads result.next 0 }
{
    let mut half = HalfEdges {
        heads: [edges.len() as u8; MOST_VERTICES],
        next: [0; EDGE_ENTRIES],
    };
    for d in (0..edges.len()).rev() {
        let v = usize::from(edges[d]);
        half.next[d] = half.heads[v];
        half.heads[v] = d as u8;
    }
    half
}

// The edge of half-edge d is looked at from the vertex of d.
fn look(c: &SimplicialComplex, d: usize, tree: &mut SpanningTree)
    requires { Searchable c.now.edges c.now.n_vertices c.now.n_edges × Fits c.now.n_vertices tree.old × (d < 2 * c.now.n_edges) }
    ensures { Searched c.now.n_vertices tree.new (look (simplices 2 c.now.edges c.now.n_edges) (get_or c.now.edges d 0) (search_of tree.old) (d / 2)) }
{
    let w = c.edges[opposite(d)];
    let place = usize::from(w);
    if tree.visited[place] != 0 {
        return;
    }
    tree.tree_edges[tree.found] = (d / 2) as u8;
    tree.found += 1;
    tree.queue[tree.found] = w;
    tree.visited[place] = 1;
}

// The edges at v are looked at from v.
fn scan(c: &SimplicialComplex, half: &HalfEdges, v: u8, tree: &mut SpanningTree)
    requires { Searchable c.now.edges c.now.n_vertices c.now.n_edges × Linked c.now.edges (2 * c.now.n_edges) half.now.heads half.now.next 0 × (v < 64) × Fits c.now.n_vertices tree.old }
    ensures { Searched c.now.n_vertices tree.new (scan (simplices 2 c.now.edges c.now.n_edges) v (search_of tree.old) c.now.n_edges) }
{
    let count = 2 * c.n_edges;
    let mut d = usize::from(half.heads[usize::from(v)]);
    // the links are followed, so no list is walked
    while d < count {
        look(c, d, tree);
        d = usize::from(half.next[d]);
    }
}

// The vertex at place h of the queue is served, if there is one and a vertex is still unseen.
fn serve(c: &SimplicialComplex, half: &HalfEdges, h: usize, tree: &mut SpanningTree)
    requires { Searchable c.now.edges c.now.n_vertices c.now.n_edges × Linked c.now.edges (2 * c.now.n_edges) half.now.heads half.now.next 0 × Fits c.now.n_vertices tree.old }
    ensures { Searched c.now.n_vertices tree.new (serve (simplices 2 c.now.edges c.now.n_edges) (search_of tree.old) h) }
{
    if tree.found < h {
        return;
    }
    if tree.found + 1 == c.n_vertices {
        return;
    }
    let v = tree.queue[h];
    scan(c, half, v, tree);
}

// The whole search: vertex 0 alone is seen at first.
pub fn search(c: &SimplicialComplex) -> SpanningTree
    requires { Searchable c.now.edges c.now.n_vertices c.now.n_edges }
    ensures { Searched c.now.n_vertices result (whole_search (simplices 2 c.now.edges c.now.n_edges) c.now.n_vertices) }
{
    let half = half_edges(&c.edges[..2 * c.n_edges]);
    let mut tree = SpanningTree {
        queue: [0; MOST_VERTICES],
        found: 0,
        tree_edges: [0; MOST_EDGES],
        visited: [0; MOST_VERTICES],
    };
    tree.visited[0] = 1;
    // by number: the queue grows while it is served
    for h in 0..c.n_vertices {
        serve(c, &half, h, &mut tree);
    }
    tree
}

// Whether every vertex is seen.
#[tactic(auto, using(crate::proofs::Trees::found_connected))]
pub fn connected(c: &SimplicialComplex) -> bool
    requires { Searchable c.now.edges c.now.n_vertices c.now.n_edges }
    ensures { result ≡ connected (simplices 2 c.now.edges c.now.n_edges) c.now.n_vertices }
{
    search(c).found + 1 == c.n_vertices
}
