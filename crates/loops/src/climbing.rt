// The path in the spanning tree between two vertices.
ghost use Rattle.std.specs.Prelude.{◌≡◌, ◌+◌, ◌<◌, length};
ghost use Rattle.complex.specs.Complex.{complex_of};
ghost use Rattle.gauss_law.specs.Spanning.{Spanned};
ghost use Rattle.loops.specs.Loops.{path};
ghost use Rattle.loops.specs.Climbing.{Orderly, Noted, Parented, StepsFit, StepsPut};

use complex::SimplicialComplex;
use complex::search::SpanningTree;
use numbers::sizes::MOST_VERTICES;

// By vertex: its place in the order found, and the edge that led to it.
#[derive(Clone, Copy)]
pub struct TreeParents {
    pub place: [u8; MOST_VERTICES],
    pub led: [u8; MOST_VERTICES],
}

// By number: a vertex's place is the number of its turn, counted from 1.
pub fn tree_parents(tree: SpanningTree) -> TreeParents
    requires { Orderly tree }
    ensures { Noted tree tree.found result.place result.led }
{
    let mut place = [0u8; MOST_VERTICES];
    let mut led = [0u8; MOST_VERTICES];
    for (i, e) in tree.tree_edges[..tree.found].iter().enumerate() {
        let v = usize::from(tree.queue[i + 1]);
        place[v] = (i + 1) as u8;
        led[v] = *e;
    }
    TreeParents { place, led }
}

// An accepted record, and how the search found its vertices.
#[derive(Clone, Copy)]
pub struct RootedTree {
    pub complex: SimplicialComplex,
    pub parents: TreeParents,
    ghost parented: { Parented complex parents },
}

impl RootedTree {
    // By the tree that the record's search found.
    pub fn new(complex: SimplicialComplex, tree: SpanningTree) -> RootedTree
        requires { Spanned complex tree }
        ensures { result.complex ≡ complex }
    {
        RootedTree {
            complex,
            parents: tree_parents(tree),
        }
    }

    // The number of steps from a to b. The one found later climbs to its parent until they meet: no list is walked, here and below.
    pub fn path_length(&self, a: usize, b: usize) -> usize
        requires { (a < self.now.complex.n_vertices) × (b < self.now.complex.n_vertices) }
        ensures { result ≡ length (path (complex_of self.now.complex) a b) }
    {
        let TreeParents { place, led } = self.parents;
        let mut x = a;
        let mut y = b;
        let mut n = 0;
        while x != y {
            n += 1;
            if place[y] < place[x] {
                x = self.complex.across(usize::from(led[x]), x);
            } else {
                y = self.complex.across(usize::from(led[y]), y);
            }
        }
        n
    }

    // The path from a to b goes to two lent lists from a place on, its edges and its directions: the place behind it. The steps from a upward
    // are written from the front, those downward to b from the back.
    pub fn write_path(
        &self,
        a: usize,
        b: usize,
        at: usize,
        edges: &mut [u8],
        directions: &mut [i8],
    ) -> usize
        requires { (a < self.now.complex.n_vertices) × (b < self.now.complex.n_vertices) × StepsFit (path (complex_of self.now.complex) a b) at edges.old directions.old }
        ensures next { result ≡ at + length (path (complex_of self.now.complex) a b) }
        ensures steps { StepsPut (path (complex_of self.now.complex) a b) at edges.old directions.old edges.new directions.new }
    {
        let TreeParents { place, led } = self.parents;
        let next = at + self.path_length(a, b);
        let mut x = a;
        let mut y = b;
        let mut front = at;
        let mut back = next;
        while x != y {
            if place[y] < place[x] {
                let e = led[x];
                edges[front] = e;
                directions[front] = self.complex.direction(usize::from(e), x);
                x = self.complex.across(usize::from(e), x);
                front += 1;
            } else {
                let e = led[y];
                y = self.complex.across(usize::from(e), y);
                back -= 1;
                edges[back] = e;
                directions[back] = self.complex.direction(usize::from(e), y);
            }
        }
        next
    }
}
