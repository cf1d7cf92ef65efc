// The closing edges of a complex and the loop of each.
#![tactic(auto)]

ghost use Rattle.std.specs.Prelude.{◌≡◌, [], ◌∷◌, ◌<◌, ◌≤◌, length, take};
ghost use Rattle.complex.specs.Complex.{complex_of};
ghost use Rattle.complex.specs.Judge.{refusal};
ghost use Rattle.su2_even_sets.specs.Loops.{separate, grown};
ghost use Rattle.su2_even_sets.specs.Forest.{Keeps, Sized, Joined, Grows};

use complex::SimplicialComplex;
use numbers::sizes::{MOST_EDGES, MOST_VERTICES};

// The part of each vertex, named after one vertex of it, the edges on the way there, and the first count closing edges and loops. There is no heap:
// both lists have room for all edges, and the count says how many there are.
#[derive(Clone, Copy)]
pub struct Forest {
    pub part: [u8; MOST_VERTICES],
    pub path: [u64; MOST_VERTICES],
    pub count: usize,
    pub closing: [u8; MOST_EDGES],
    pub loops: [u64; MOST_EDGES],
}

impl Forest {
    // Each vertex is a part of its own.
    fn separate() -> Forest
        ensures { Keeps separate result }
    {
        let mut part = [0u8; MOST_VERTICES];
        for (v, p) in part.iter_mut().enumerate() {
            *p = v as u8;
        }
        Forest {
            part,
            path: [0; MOST_VERTICES],
            count: 0,
            closing: [0; MOST_EDGES],
            loops: [0; MOST_EDGES],
        }
    }

    // The loops of the closing edges.
    pub fn loops(&self) -> &[u64]
        requires { self.now.count ≤ length self.now.loops }
        ensures { result.now ≡ take self.now.count self.now.loops }
    {
        &self.loops[..self.count]
    }

    // One part goes over into another, and the paths of its vertices with a loop added.
    fn join(&mut self, n_vertices: usize, from: u8, to: u8, cycle: u64)
        requires { Sized self.old × (n_vertices ≤ 64) }
        ensures tables { Joined self.old.part self.old.path from to cycle n_vertices self.new.part self.new.path }
        ensures loops { (self.new.closing ≡ self.old.closing) × (self.new.loops ≡ self.old.loops) × (self.new.count ≡ self.old.count) }
    {
        // Two tables are written at once: a zip of both would say nothing of what they then hold.
        for v in 0..n_vertices {
            if self.part[v] == from {
                self.part[v] = to;
                self.path[v] ^= cycle;
            }
        }
    }

    // Edge e from a to b closes a loop, or joins two parts.
    fn grow(&mut self, n_vertices: usize, a: usize, b: usize, e: usize)
        requires { Sized self.old × (self.old.count ≤ e) × (e < 63) × (a < n_vertices) × (b < n_vertices) × (n_vertices ≤ 64) }
        ensures { Grows n_vertices self.old (a ∷ b ∷ []) e self.new }
    {
        let from = self.part[b];
        let to = self.part[a];
        let cycle = self.path[a] ^ self.path[b] ^ (1 << e);
        if from == to {
            self.closing[self.count] = e as u8;
            self.loops[self.count] = cycle;
            self.count += 1;
        } else {
            self.join(n_vertices, from, to, cycle);
        }
    }
}

// The closing edges of an accepted record and their loops.
pub fn closing_loops(c: SimplicialComplex) -> Forest
    requires { refusal (complex_of c) ≡ 0 }
    ensures { Keeps (grown (complex_of c).edges c.n_edges) result }
{
    let mut forest = Forest::separate();
    // By number: `edge` gives the ends as places of the tables, and the edge closes a loop under its number.
    for e in 0..c.n_edges {
        let (a, b) = c.edge(e);
        forest.grow(c.n_vertices, a, b, e);
    }
    forest
}
