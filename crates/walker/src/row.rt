// One state of a block at a time.
ghost use Rattle.std.specs.Prelude.{◌≡◌, ◌^◌, ◌≤◌, length, pos};
ghost use Rattle.walker.specs.Steps.{Addable};
ghost use Rattle.cycles.specs.Cycles.{with_cycle};

use crate::steps::plus_times;

// An assignment with a cycle added a number of times goes to a row. By number, as in `add` (steps.rt).
pub fn fill_row(row: &mut [i32], config: &[i32], cycle: &[i8], times: usize)
    requires { Addable config.now (pos 0) cycle.now × (times ≤ 2 ^ 20) × (length row.old ≡ length config.now) }
    ensures { row.new ≡ with_cycle config.now (pos times) cycle.now }
{
    let t = times as i32;
    for (e, x) in row.iter_mut().enumerate() {
        *x = plus_times(config[e], t, cycle[e]);
    }
}
