// The rows of a block made of those of the block before it in its run, or each of the row before: a cycle is added to what stands there.
ghost use Rattle.std.specs.Prelude.{◌≡◌, ◌+◌, ◌*◌, ◌-◌, ◌^◌, ◌<◌, ◌≤◌, length, pos, neg_ℤ};
ghost use mathlib.Core.List.{flatten};
ghost use Rattle.cycles.specs.Cycles.{with_cycle};
ghost use Rattle.walker.specs.Walker.{block_rows};
ghost use Rattle.walker.specs.Steps.{Small, Addable};
ghost use Rattle.runs.specs.Rows.{Beside, Raisable, RowsBefore, raised, repeated};
ghost use Rattle.mathematics.specs.Writing.{put};

use crate::tables::RunTables;
use numbers::sizes::MOST_EDGES;
use walker::blocks::Span;
use walker::row::fill_row;

// The most entries that are raised at once.
pub const BESIDE_ENTRIES: usize = 256;

// How many rows are made at once of those of the block before. 0 for long blocks of many edges: on the longest, making each row of the one
// before it was measured to be faster. A number and no Option: the tables hold the second cycle so often, 0 times too.
pub fn rows_at_once(n_edges: usize, candidates: usize) -> usize
    requires { n_edges ≤ 63 }
    ensures { (result * n_edges ≤ 256) × (result ≤ 256) }
{
    if n_edges <= 1 {
        return 1;
    }
    if (16 < n_edges) & (64 < candidates) {
        return 0;
    }
    candidates.min(BESIDE_ENTRIES / n_edges)
}

// An assignment with a cycle added a number of times goes to a place of the list.
fn write_row(states: &mut [i32], at: usize, config: &[i32], cycle: &[i8], times: usize)
    requires { Addable config.now (pos 0) cycle.now × (times < 2 ^ 20) × (at + length config.now ≤ length states.old) }
    ensures { states.new ≡ put states.old at (with_cycle config.now (pos times) cycle.now) }
{
    fill_row(&mut states[at..at + config.len()], config, cycle, times);
}

// A cycle as numbers, once for each of some rows: what is added to them. By number: a cycle may have no entries, so that there need be no
// chunks.
pub fn rows_beside(cycle: &[i8], rows: usize) -> [i32; BESIDE_ENTRIES]
    requires { Small 1 cycle.now × (rows * length cycle.now ≤ 256) × (length cycle.now ≤ 63) × (rows ≤ 256) }
    ensures { Beside cycle.now rows result }
{
    let m = cycle.len();
    let zeros = [0i32; MOST_EDGES];
    let mut beside = [0i32; BESIDE_ENTRIES];
    for i in 0..rows {
        write_row(&mut beside, i * m, &zeros[0..m], cycle, 1);
    }
    beside
}

// What stands some entries before a place goes to the place, an amount added to each entry. By number: it reads and writes one list.
fn raise(states: &mut [i32], at: usize, back: usize, amounts: &[i32])
    requires { Raisable states.old at back amounts.now }
    ensures { states.new ≡ put states.old at (raised states.old (at - back) amounts.now) }
{
    let from = at - back;
    for (i, amount) in amounts.iter().enumerate() {
        states[at + i] = states[from + i] + *amount;
    }
}

impl RunTables<'_> {
    // The same for a number of rows, with the second cycle added to each. The last turn may have fewer rows than are raised at once.
    // The loop counts what is left: step_by was measured to be slower on short blocks.
    fn raise_rows(&self, states: &mut [i32], at: usize, back: usize, number: usize)
        requires { Raisable states.old at back (repeated self.now.second.now number) × Beside self.now.second.now self.now.rows self.now.beside.now × (1 ≤ self.now.rows) × (self.now.rows * length self.now.second.now ≤ 256) }
        ensures { states.new ≡ put states.old at (raised states.old (at - back) (repeated self.now.second.now number)) }
    {
        let m = self.second.len();
        let mut place = at;
        let mut left = number;
        while 0 < left {
            let more = self.rows.min(left);
            raise(states, place, back, &self.beside[..more * m]);
            place += more * m;
            left -= more;
        }
    }

    // The rows of a block go to a place of the list. The first is worked out; each other is the one before it with the first cycle added.
    // Counted: a turn reads the row before the one that it writes.
    pub fn write_rows(&self, states: &mut [i32], at: usize, config: &[i32], span: Span)
        requires { Addable config.now (pos 0) self.now.first.now × (span.to ≤ 2 ^ 20) × (at + (span.to - span.from) * length config.now ≤ length states.old) × (self.now.ahead.now ≡ self.now.first.now) }
        ensures { states.new ≡ put states.old at (flatten (block_rows config.now self.now.first.now span.from span.to)) }
    {
        if span.is_empty() {
            return;
        }
        let m = config.len();
        write_row(states, at, config, self.first, span.from);
        let mut place = at;
        for _ in span.from + 1..span.to {
            place += m;
            raise(states, place, m, self.ahead);
        }
    }

    // The rows of a block go to a place of the list. Those of the block before stand right before it, and begin at the assignment less the
    // second cycle. A row with the same number there is raised, with others at once; all other rows are made as in write_rows. Where rows is
    // 0, all are.
    pub fn write_beside(
        &self,
        states: &mut [i32],
        at: usize,
        config: &[i32],
        span: Span,
        last: Span,
    )
        requires { Addable config.now (pos 0) self.now.first.now × Addable config.now (pos 0) self.now.second.now × (span.to ≤ 2 ^ 20) × (at + (span.to - span.from) * length config.now ≤ length states.old) × RowsBefore states.old at (with_cycle config.now (neg_ℤ (pos 1)) self.now.second.now) self.now.first.now last × Beside self.now.second.now self.now.rows self.now.beside.now × (self.now.ahead.now ≡ self.now.first.now) × (self.now.rows * length config.now ≤ 256) }
        ensures { states.new ≡ put states.old at (flatten (block_rows config.now self.now.first.now span.from span.to)) }
    {
        let from = span.from;
        let to = span.to;
        let end = last.to;
        let low = from.max(last.from);
        let high = to.min(end);
        if (high <= low) | (self.rows == 0) {
            self.write_rows(states, at, config, span);
            return;
        }
        let m = config.len();
        self.write_rows(states, at, config, Span { from, to: low });
        self.raise_rows(states, at + (low - from) * m, (end - from) * m, high - low);
        self.write_rows(
            states,
            at + (high - from) * m,
            config,
            Span { from: high, to },
        );
    }
}
