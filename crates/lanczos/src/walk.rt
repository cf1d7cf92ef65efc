// The plaquettes of a triangle in a product: one walk over the runs of states finds all hits.
ghost use Rattle.std.specs.Prelude.{◌≡◌, List, ℕ, ◌+◌, ◌≤◌, length};
ghost use Rattle.complex.specs.Complex.{Complex};
ghost use Rattle.lanczos.specs.Matvec.{states_added};
ghost use Rattle.lanczos.specs.Walk.{run_added};
ghost use Rattle.lanczos.specs.Runs.{FirstCycle};
ghost use Rattle.lanczos.specs.Tables.{Runs};
ghost use Rattle.plaquettes.specs.Targets.{BasisList};
ghost use Rattle.triangles.specs.Indices.{SidesOf};

use crate::state_runs::RunTables;

// x times the amplitude of each of two states is added at the other, for the states of a run and their targets, one after the other.
// By number: both places are in one list.
fn add_run(res: &mut [f64], vector: &[f64], i: usize, j: usize, count: usize, x: f64)
    requires { (i + count ≤ length res.old) × (i + count ≤ length vector.now) × (j + count ≤ length res.old) × (j + count ≤ length vector.now) × (i + count ≤ 1048576) × (j + count ≤ 1048576) }
    ensures { res.new ≡ run_added x vector.now i j count res.old }
{
    for k in 0..count {
        let a = i + k;
        let b = j + k;
        res[a] = res[a] + x * vector[b];
        res[b] = res[b] + x * vector[a];
    }
}

// What the plaquette of a triangle adds is added at both states of each hit. Run by run: where the next run begins is known only behind the last.
pub fn add_plaquette(tables: &RunTables<'_>, x: f64, vector: &[f64], res: &mut [f64])
    requires { Runs tables.now × (tables.now.sizes.states ≤ length vector.now) × (tables.now.sizes.states ≤ length res.old) }
    ensures { (c : Complex) (t : ℕ) (free : List ℕ) → BasisList c tables.now.list.now tables.now.sizes free → SidesOf c t tables.now.sides → FirstCycle c tables.now.cycle.now → res.new ≡ states_added c tables.now.sizes.lambda t x vector.now tables.now.sizes.states res.old }
{
    let n = tables.sizes.states;
    let mut i = 0;
    let mut j = 0;
    while i < n {
        let r = tables.find_run(i, j);
        add_run(res, vector, r.from, r.to, r.length, x);
        i = r.from + r.length;
        j = r.to + r.length;
    }
}
