// A small complex of vertices, edges and triangles, judged before anything rests on it.
#![tactic(auto)]

pub mod numbering;
pub mod search;

ghost use Rattle.std.specs.Prelude.{◌≡◌, cond, ◌+◌, ◌*◌, ◌<◌, ◌≤◌, get_or, eqb, pos, negsuc};
ghost use Rattle.complex.specs.Complex.{entries, simplices};
ghost use Rattle.complex.specs.Search.{across};

use numbers::sizes::{EDGE_ENTRIES, TRIANGLE_ENTRIES};

// The lists are fixed memory, and the numbers say how much of them is used: there is no heap.
#[derive(Clone, Copy)]
pub struct SimplicialComplex {
    pub n_vertices: usize,
    pub n_edges: usize,
    // flat pairs of vertices
    pub edges: [u8; EDGE_ENTRIES],
    pub n_triangles: usize,
    // flat triples of vertices
    pub triangles: [u8; TRIANGLE_ENTRIES],
}

impl SimplicialComplex {
    // The vertices of an edge.
    pub fn edge(&self, e: usize) -> (usize, usize)
        requires { e < 63 }
        ensures first { result.0 ≡ get_or self.now.edges (2 * e) 0 }
        ensures second { result.1 ≡ get_or self.now.edges (2 * e + 1) 0 }
    {
        (
            usize::from(self.edges[2 * e]),
            usize::from(self.edges[2 * e + 1]),
        )
    }

    // The edges in their order, each as its two vertices.
    pub fn edge_pairs(&self) -> &[[u8; 2]]
        requires { self.now.n_edges ≤ 63 }
        ensures { result.now ≡ simplices 2 self.now.edges self.now.n_edges }
    {
        let (whole, _) = self.edges[..2 * self.n_edges].as_chunks::<2>();
        whole
    }

    // The end of edge e across from v.
    pub fn across(&self, e: usize, v: usize) -> usize
        requires { e < 63 }
        ensures { result ≡ across (entries self.now.edges (2 * e) 2) v }
    {
        let (a, b) = self.edge(e);
        if a == v { b } else { a }
    }

    // The direction in which edge e is gone over from v: 1 where v is its first vertex, else -1.
    pub fn direction(&self, e: usize, v: usize) -> i8
        requires { e < 63 }
        ensures { result ≡ cond (eqb (get_or self.now.edges (2 * e) 0) v) (pos 1) (negsuc 0) }
    {
        let (a, _) = self.edge(e);
        if a == v { 1 } else { -1 }
    }

    // The vertices of a triangle.
    pub fn triangle(&self, t: usize) -> (usize, usize, usize)
        requires { t < 256 }
        ensures first { result.0 ≡ get_or self.now.triangles (3 * t) 0 }
        ensures second { result.1 ≡ get_or self.now.triangles (3 * t + 1) 0 }
        ensures third { result.2 ≡ get_or self.now.triangles (3 * t + 2) 0 }
    {
        (
            usize::from(self.triangles[3 * t]),
            usize::from(self.triangles[3 * t + 1]),
            usize::from(self.triangles[3 * t + 2]),
        )
    }
}
