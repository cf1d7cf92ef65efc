// The states of a record, by its tables: counted or written, run after run.
#![tactic(auto)]

pub mod edges;
pub mod rows;
pub mod run;
pub mod tables;

ghost use Rattle.std.specs.Prelude.{◌≡◌, ◌*◌, ◌≤◌, length};
ghost use Rattle.walker.specs.Tables.{states_of, Fit};
ghost use Rattle.walker.specs.Blocks.{StatesWritten};

use crate::edges::Kinds;
use crate::rows::{rows_at_once, rows_beside};
use crate::run::run_width;
use crate::tables::RunTables;
use numbers::sizes::MOST_EDGES;
use walker::blocks::width;
use walker::tables::Walker;

// How many states the first blocks have. By number: the last run may have fewer blocks.
#[tactic(auto, using(crate::proofs::OneRun::cycles_here, crate::proofs::OneRun::step_asks, crate::proofs::OneRun::wide_enough))]
pub fn count_states(w: &Walker, lambda: usize, blocks: usize) -> usize
    requires { Fit w.now lambda blocks }
    ensures { result ≡ length (states_of w.now lambda blocks) }
{
    let m = w.n_edges;
    let first = &w.cycles[..m];
    let second = &w.cycles[MOST_EDGES..MOST_EDGES + m];
    let kinds = Kinds::of(first, second);
    let tables = RunTables::of(first, second, &kinds, lambda, width(w.n_free, lambda));
    let wide = run_width(w.n_free, lambda);
    let mut space = w.first;
    let config = &mut space[..m];
    let mut count = 0;
    for from in (0..blocks).step_by(wide) {
        let run = (blocks - from).min(wide);
        let span = tables.span(config, run);
        count += tables.count(config, span);
        w.step(config, lambda, 2);
    }
    count
}

// The states of the first blocks go to the beginning of a list. How many they are. By number as in count_states.
#[tactic(auto, using(crate::proofs::OneRun::cycles_here, crate::proofs::OneRun::step_asks, crate::proofs::OneRun::wide_enough))]
pub fn write_states(w: &Walker, lambda: usize, blocks: usize, states: &mut [i32]) -> usize
    requires { Fit w.now lambda blocks × (length (states_of w.now lambda blocks) * w.now.n_edges ≤ length states.old) }
    ensures { StatesWritten (states_of w.now lambda blocks) states.old states.new result }
{
    let m = w.n_edges;
    let first = &w.cycles[..m];
    let second = &w.cycles[MOST_EDGES..MOST_EDGES + m];
    let kinds = Kinds::of(first, second);
    let width = width(w.n_free, lambda);
    let rows = rows_at_once(m, width);
    let ahead = rows_beside(first, 1);
    let beside = rows_beside(second, rows);
    let tables = RunTables {
        ahead: &ahead[..m],
        beside: &beside,
        rows,
        ..RunTables::of(first, second, &kinds, lambda, width)
    };
    let wide = run_width(w.n_free, lambda);
    let mut space = w.first;
    let config = &mut space[..m];
    let mut row_space = [0i32; MOST_EDGES];
    let row = &mut row_space[..m];
    let mut count = 0;
    for from in (0..blocks).step_by(wide) {
        let run = (blocks - from).min(wide);
        let span = tables.span(config, run);
        count += tables.write(states, count * m, row, config, span);
        w.step(config, lambda, 2);
    }
    count
}
