// One lawful assignment, moved by fundamental cycles: where the walk begins, and its steps.
ghost use Rattle.std.specs.Prelude.{◌≡◌, ◌^◌, ◌≤◌, length, pos, neg_ℤ, nat_abs, ◌+ℤ◌, ◌*ℤ◌};
ghost use Rattle.cycles.specs.Cycles.{row, with_cycle};
ghost use Rattle.walker.specs.Walker.{lowest_candidate};
ghost use Rattle.walker.specs.Steps.{Small, Addable, CyclesFit};

use numbers::sizes::MOST_EDGES;

pub fn negative(x: usize) -> i32
    requires { x ≤ 2 ^ 20 }
    ensures { result ≡ neg_ℤ (pos x) }
{
    -(x as i32)
}

// A sign added to a value a number of times.
pub fn plus_times(x: i32, times: i32, sign: i8) -> i32
    requires { (nat_abs x ≤ 2 ^ 24) × (nat_abs times ≤ 2 ^ 24) × (nat_abs sign ≤ 1) }
    ensures { result ≡ x +ℤ times *ℤ sign }
{
    x + times * i32::from(sign)
}

// A cycle added to an assignment a number of times. By number: a proof knows nothing of what a loop over a zip with iter_mut wrote.
pub fn add(config: &mut [i32], cycle: &[i8], times: i32)
    requires { Addable config.old times cycle.now }
    ensures { config.new ≡ with_cycle config.old times cycle.now }
{
    for (e, x) in config.iter_mut().enumerate() {
        *x = plus_times(*x, times, cycle[e]);
    }
}

// From an assignment with 0 on every free edge to the candidate with -lambda on each. By number: rows of a flat table, of which no more are
// full than there are free edges.
pub fn begin(config: &mut [i32], cycles: &[i8], n_free: usize, lambda: usize)
    requires { Small (2 ^ 13) config.old × CyclesFit (length config.old) n_free lambda cycles.now }
    ensures { config.new ≡ lowest_candidate (row (length config.old) cycles.now) lambda config.old n_free }
{
    let m = config.len();
    let low = negative(lambda);
    for j in 0..n_free {
        add(config, &cycles[MOST_EDGES * j..MOST_EDGES * j + m], low);
    }
}
