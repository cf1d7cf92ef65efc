// The tables of a record, by which its states are walked.
ghost use Rattle.std.specs.Prelude.{◌≡◌, ◌≤◌};
ghost use Rattle.complex.specs.Complex.{complex_of};
ghost use Rattle.complex.specs.Judge.{refusal};
ghost use Rattle.walker.specs.Tables.{Walks};

use crate::steps::{add, begin, negative};
use complex::SimplicialComplex;
use complex::search::search;
use cycles::{CYCLE_ENTRIES, fundamental_cycles, tree_paths};
use gauss_law::spanning::free_edges;
use numbers::sizes::MOST_EDGES;

// The first n_free entries of free are the free edges; row j of cycles is the cycle of the j-th; first begins with the first candidate. There is no
// heap, so each table has room for the most edges.
#[derive(Clone, Copy)]
pub struct Walker {
    pub n_edges: usize,
    pub n_free: usize,
    pub free: [u8; MOST_EDGES],
    pub cycles: [i8; CYCLE_ENTRIES],
    pub first: [i32; MOST_EDGES],
}

// The tables of an accepted record, and where its walk begins.
#[tactic(auto, using(crate::proofs::Fitting::few_edges))]
pub fn prepare(c: SimplicialComplex, lambda: usize) -> Walker
    requires { (refusal (complex_of c) ≡ 0) × (lambda ≤ 1000) }
    ensures { Walks (complex_of c) lambda result }
{
    let tree = search(&c);
    let free = free_edges(c, tree);
    let paths = tree_paths(c, tree);
    let cycles = fundamental_cycles(c, &paths, free);
    let list = free.list;
    let mut first = [0i32; MOST_EDGES];
    begin(&mut first[..c.n_edges], &cycles, free.count, lambda);
    Walker {
        n_edges: c.n_edges,
        n_free: free.count,
        free: list,
        cycles,
        first,
    }
}

impl Walker {
    ghost use Rattle.std.specs.Prelude.{◌≡◌, ◌-◌, ◌^◌, length};
    ghost use Rattle.cycles.specs.Cycles.{row};
    ghost use Rattle.walker.specs.Walker.{stepped};
    ghost use Rattle.walker.specs.Steps.{Small, CyclesFit, FreeFit};

    // One step of the counter over the free edges, from number `from` on: with 1 to the next block, with 2 to the next run of blocks. By
    // number: it begins at one of the free edges, and the cycle with the same number goes with it.
    pub fn step(&self, config: &mut [i32], lambda: usize, from: usize)
        requires { CyclesFit (length config.old) self.now.n_free lambda self.now.cycles × FreeFit (length config.old) self.now.n_free self.now.free × Small (2 ^ 20) config.old }
        ensures { config.new ≡ stepped self.now.free (row (length config.old) self.now.cycles) lambda (self.now.n_free - from) from config.old }
    {
        let m = config.len();
        let top = lambda as i32;
        let back = negative(2 * lambda);
        for j in from..self.n_free {
            let cycle = &self.cycles[MOST_EDGES * j..MOST_EDGES * j + m];
            if config[usize::from(self.free[j])] < top {
                add(config, cycle, 1);
                return;
            }
            add(config, cycle, back);
        }
    }
}
