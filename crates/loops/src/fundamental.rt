// The fundamental loops of a record.
ghost use Rattle.std.specs.Prelude.{◌≡◌, ◌+◌, ◌<◌, ◌≤◌, length};
ghost use Rattle.mathematics.specs.Calls.{Answered};
ghost use Rattle.answers.specs.Refusal.{answer_of};
ghost use Rattle.complex.specs.Complex.{complex_of};
ghost use Rattle.gauss_law.specs.Listing.{free_edges};
ghost use Rattle.gauss_law.specs.Spanning.{FreeOf};
ghost use Rattle.loops.specs.Loops.{loop_of, all_steps, loops_call, su2_loops_call};
ghost use Rattle.loops.specs.Climbing.{StepsFit, LoopPut, LoopsPut};

use crate::climbing::RootedTree;
use acceptance::accept;
use answers::refusal::Refusal;
use complex::SimplicialComplex;
use complex::search::search;
use gauss_law::spanning::free_edges;
use numbers::edge_list::EdgeList;
use numbers::sizes::MOST_EDGES;

// The loops of a record have no more steps than this together: there are no more loops than edges, and none goes over an edge twice.
pub const MOST_STEPS: usize = MOST_EDGES * MOST_EDGES;

impl RootedTree {
    // The number of steps of the loop of edge f.
    fn loop_length(&self, f: usize) -> usize
        requires { f < self.now.complex.n_edges }
        ensures { result ≡ length (loop_of (complex_of self.now.complex) f) }
    {
        let (a, b) = self.complex.edge(f);
        self.path_length(a, b) + 1
    }

    // The number of steps of all loops. Added up by hand: the library's `sum` over a `map` was tried. It asks that the sum over each run of the
    // chain fits, and the proof lacked what a run of these calls sums to.
    fn total_steps(&self, free: EdgeList) -> usize
        requires { FreeOf (complex_of self.now.complex) free }
        ensures { result ≡ length (all_steps (complex_of self.now.complex)) }
    {
        let mut total = 0;
        for f in free.as_slice() {
            total += self.loop_length(usize::from(*f));
        }
        total
    }

    // The loop of edge f goes to two lent lists from a place on: the place behind it.
    fn put_loop(&self, f: usize, at: usize, edges: &mut [u8], directions: &mut [i8]) -> usize
        requires { (f < self.now.complex.n_edges) × StepsFit (loop_of (complex_of self.now.complex) f) at edges.old directions.old }
        ensures { LoopPut (loop_of (complex_of self.now.complex) f) at edges.old directions.old result edges.new directions.new }
    {
        let (a, b) = self.complex.edge(f);
        let last = self.write_path(a, b, at, edges, directions);
        edges[last] = f as u8;
        directions[last] = -1;
        last + 1
    }

    // The loops of all free edges go to three lent lists, one loop after the other.
    fn write_loops(
        &self,
        free: EdgeList,
        starts: &mut [u32],
        edges: &mut [u8],
        directions: &mut [i8],
    )
        requires { FreeOf (complex_of self.now.complex) free × (length (free_edges (complex_of self.now.complex)) + 1 ≤ length starts.old) × StepsFit (all_steps (complex_of self.now.complex)) 0 edges.old directions.old }
        ensures { LoopsPut (complex_of self.now.complex) starts.old edges.old directions.old starts.new edges.new directions.new }
    {
        let mut at = 0;
        for (j, f) in free.as_slice().iter().enumerate() {
            starts[j] = at as u32;
            at = self.put_loop(usize::from(*f), at, edges, directions);
        }
        starts[free.len()] = at as u32;
    }
}

// The fundamental loops of a record by rising free edge: where each begins among all steps and last how many steps there are, and of
// each step the edge and the direction. The record is judged first.
pub fn fundamental_loops(
    c: SimplicialComplex,
    starts: &mut [u32],
    edges: &mut [u8],
    directions: &mut [i8],
) -> Result<usize, Refusal>
    ensures { Answered (loops_call (complex_of c) starts.old edges.old directions.old) (answer_of result) (starts.new, edges.new, directions.new) }
{
    accept(c)?;
    let tree = search(&c);
    let free = free_edges(c, tree);
    let rooted = RootedTree::new(c, tree);
    let total = rooted.total_steps(free);
    let count = free.len();
    if (starts.len() < count + 1) | (edges.len() < total) | (directions.len() < total) {
        return Err(Refusal::NoRoom);
    }
    rooted.write_loops(free, starts, edges, directions);
    Ok(count)
}

// The same without directions: they go to a list of its own, which has room for those of every record.
pub fn su2_fundamental_loops(
    c: SimplicialComplex,
    starts: &mut [u32],
    edges: &mut [u8],
) -> Result<usize, Refusal>
    ensures { Answered (su2_loops_call (complex_of c) starts.old edges.old) (answer_of result) (starts.new, edges.new) }
{
    let mut directions = [0i8; MOST_STEPS];
    fundamental_loops(c, starts, edges, &mut directions)
}
