// A run: the blocks that agree on all free edges but the first two.
ghost use Rattle.std.specs.Prelude.{◌≡◌, ◌+◌, ◌*◌, ◌-◌, ◌^◌, ◌≤◌, length};
ghost use Rattle.cycles.specs.Cycles.{with_cycle};
ghost use Rattle.walker.specs.Walker.{width};
ghost use Rattle.walker.specs.Steps.{Small, Addable};
ghost use Rattle.walker.specs.Blocks.{SpanTo, WrittenAt};
ghost use Rattle.runs.specs.Edges.{Edges, Listed, picked};
ghost use Rattle.runs.specs.Rows.{Beside};
ghost use Rattle.runs.specs.Runs.{run_states, RunFit, SideSpan, Inside};

use crate::edges::all_within;
use crate::tables::RunTables;
use walker::blocks::Span;
use walker::row::fill_row;
use walker::steps::{add, plus_times};

// The number of blocks in a run.
#[tactic(auto, using(walker::proofs::BlockStates::width_none, walker::proofs::BlockStates::width_some))]
pub fn run_width(n_free: usize, lambda: usize) -> usize
    requires { lambda ≤ 1000 }
    ensures { result ≡ width lambda (n_free - 1) }
{
    if n_free < 2 { 1 } else { 2 * lambda + 1 }
}

impl RunTables<'_> {
    // The multiples of a cycle that keep the values on listed edges within the bounds, below a width. Before that the second cycle is added
    // to the values some times, 0 where it is not.
    pub fn span_over(
        &self,
        config: &[i32],
        times: i32,
        cycle: &[i8],
        list: &[u8],
        width: usize,
    ) -> Span
        requires { Listed (length config.now) list.now (length list.now) × (length cycle.now ≡ length config.now) × Addable config.now times self.now.second.now × Small (2 ^ 20) (with_cycle config.now times self.now.second.now) × Small 1 cycle.now × (self.now.lambda ≤ 1000) }
        ensures { SpanTo self.now.lambda width (picked list.now (length list.now) (with_cycle config.now times self.now.second.now)) (picked list.now (length list.now) cycle.now) (length list.now) result }
    {
        let mut span = Span { from: 0, to: width };
        for edge in list {
            let e = usize::from(*edge);
            let x = plus_times(config[e], times, self.second[e]);
            span = span.narrow(x, cycle[e], self.lambda, width);
        }
        span
    }

    // Of so many blocks of a run those that stay within the bounds on the edges that the first cycle does not move.
    pub fn span(&self, config: &[i32], run: usize) -> Span
        requires { Listed (length config.now) self.now.still.now (length self.now.still.now) × Listed (length config.now) self.now.side.now (length self.now.side.now) × (length self.now.second.now ≡ length config.now) × Small (2 ^ 20) config.now × Small 1 self.now.second.now × (self.now.lambda ≤ 1000) }
        ensures { SideSpan self.now.lambda config.now self.now.second.now self.now.still.now (length self.now.still.now) self.now.side.now (length self.now.side.now) run result }
    {
        if all_within(config, self.still, self.lambda) {
            return self.span_over(config, 0, self.second, self.side, run);
        }
        Span { from: run, to: run }
    }

    // How many states the blocks of a span have. Counting needs only the values on the edges that the first cycle moves. By number: it tells
    // how often the second cycle is added.
    pub fn count(&self, config: &[i32], span: Span) -> usize
        requires { RunFit self.now.lambda self.now.width config.now self.now.first.now self.now.second.now span.to × Inside self.now.lambda config.now self.now.first.now self.now.second.now span × Edges self.now.first.now self.now.second.now 2 (length config.now) self.now.moved.now (length self.now.moved.now) }
        ensures { result ≡ length (run_states self.now.lambda self.now.width config.now self.now.first.now self.now.second.now span.from span.to) }
    {
        let mut count = 0;
        for i in span.from..span.to {
            count += self
                .span_over(config, i as i32, self.first, self.moved, self.width)
                .size();
        }
        count
    }

    // The states of the blocks of a span go to a place of the list. How many they are. The row is space for the assignment at which a block
    // begins; it is counted from block to block.
    pub fn write(
        &self,
        states: &mut [i32],
        at: usize,
        row: &mut [i32],
        config: &[i32],
        span: Span,
    ) -> usize
        requires { (length row.old ≡ length config.now) × RunFit self.now.lambda self.now.width config.now self.now.first.now self.now.second.now span.to × Inside self.now.lambda config.now self.now.first.now self.now.second.now span × Edges self.now.first.now self.now.second.now 2 (length config.now) self.now.moved.now (length self.now.moved.now) × Beside self.now.second.now self.now.rows self.now.beside.now × (self.now.ahead.now ≡ self.now.first.now) × (self.now.rows * length config.now ≤ 256) × (at + length (run_states self.now.lambda self.now.width config.now self.now.first.now self.now.second.now span.from span.to) * length config.now ≤ length states.old) }
        ensures { WrittenAt (run_states self.now.lambda self.now.width config.now self.now.first.now self.now.second.now span.from span.to) states.old states.new at result }
    {
        if span.is_empty() {
            return 0;
        }
        let m = config.len();
        fill_row(row, config, self.second, span.from);
        let mut count = 0;
        let mut last = Span { from: 0, to: 0 };
        for _ in span.from..span.to {
            let block = self.span_over(row, 0, self.first, self.moved, self.width);
            self.write_beside(states, at + count * m, row, block, last);
            count += block.size();
            add(row, self.second, 1);
            last = block;
        }
        count
    }
}
