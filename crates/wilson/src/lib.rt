// The Wilson loop along a path. The row that a walk changes is an array of fixed length, as the library has no heap.
#![tactic(auto)]

ghost use Rattle.std.specs.Prelude.{◌≡◌, ◌||◌, ◌*◌, ◌^◌, ◌<◌, ◌≤◌, pos, negsuc, nat_abs, length};
ghost use Rattle.mathematics.specs.Integers.{equal};
ghost use Rattle.mathematics.specs.Tests.{every_entry};
ghost use Rattle.mathematics.specs.Calls.{Answered};
ghost use Rattle.answers.specs.Refusal.{answer_of};
ghost use Rattle.complex.specs.Complex.{Complex, complex_of};
ghost use Rattle.gauss_law.specs.Shifts.{raised};
ghost use Rattle.plaquettes.specs.Targets.{BasisList};
ghost use Rattle.wilson.specs.Wilson.{path_of, wilson, step_right, wilson_call};
ghost use Rattle.wilson.specs.Walking.{PathFits, Amplitudes, with_product, Stepped};

use answers::refusal::Refusal;
use complex::SimplicialComplex;
use enumeration::basis::Basis;
use hilbert::search::advance;
use matrices::weights::all_bounded;
use numbers::sizes::MOST_EDGES;
use plaquettes::rows::row_at;
use plaquettes::target::{Sizes, copy_state, list_states};
use walker::blocks::within;

// A path: the edges of its steps, and the direction of each.
#[derive(Clone, Copy)]
pub struct Path<'a> {
    pub edges: &'a [u8],
    pub directions: &'a [i8],
}

fn is_direction(d: i8) -> bool
    ensures { result ≡ (equal d (pos 1) || equal d (negsuc 0)) }
{
    (d == 1) | (d == -1)
}

// A step of a walk: whether it stays within -lambda to lambda.
fn take_step(row: &mut [i32; MOST_EDGES], edge: u8, direction: i8, lambda: usize) -> bool
    requires { (length row.old ≡ 63) × (edge < 63) × (lambda ≤ 1000) × (nat_abs (raised row.old edge direction) ≤ 2 ^ 20) }
    ensures { Stepped lambda row.old edge direction result row.new }
{
    let e = usize::from(edge);
    let x = row[e] + i32::from(direction);
    row[e] = x;
    within(x, lambda)
}

impl Path<'_> {
    // Whether every step is over one of m edges, in the direction 1 or -1.
    fn is_right(self, m: usize) -> bool
        requires { length self.directions.now ≡ length self.edges.now }
        ensures { result ≡ every_entry (step_right m) (path_of self.entry.edges.now self.entry.directions.now) }
    {
        let mut so_far = true;
        for (edge, direction) in self.edges.iter().zip(self.directions) {
            so_far &= (usize::from(*edge) < m) & is_direction(*direction);
        }
        so_far
    }
}

// Where row j is the configuration, the product of the amplitudes i and j is added. There is a row for each amplitude.
fn add_reached(
    list: &[i32],
    amplitudes: &[f64],
    i: usize,
    j: usize,
    configuration: &[i32],
    total: f64,
) -> f64
    requires { (length amplitudes.now ≤ 2 ^ 20) × (length configuration.now ≤ 63) × (length amplitudes.now * length configuration.now ≤ length list.now) × (i < length amplitudes.now) }
    ensures { result ≡ with_product list.now (length amplitudes.now) amplitudes.now i j configuration.now total }
{
    if amplitudes.len() <= j {
        return total;
    }
    if row_at(list, configuration.len(), j) == configuration {
        return total + amplitudes[i] * amplitudes[j];
    }
    total
}

// The sum over the states of a list, rising. The walk stops at the first step that leaves the band, and the next state follows. What the
// walks reach rises with the states, so that each is sought from the place of the last on. By number: `add_reached` takes rows and
// amplitudes by their numbers. `free` is the whole table, as `advance` takes it.
fn wilson_sum(
    list: &[i32],
    s: Sizes,
    free: &[u8; MOST_EDGES],
    amplitudes: &[f64],
    path: Path<'_>,
) -> f64
    requires { Amplitudes list.now s free.now amplitudes.now × PathFits s.edges path.edges.now path.directions.now }
    ensures { (c : Complex) → BasisList c list.now s free.now → result ≡ wilson c s.lambda amplitudes.now (path_of path.entry.edges.now path.entry.directions.now) }
{
    let m = s.edges;
    let mut reached = [0i32; MOST_EDGES];
    let mut from = 0;
    let mut total = 0.0;
    'states: for i in 0..s.states {
        copy_state(&mut reached, row_at(list, m, i));
        for (edge, direction) in path.edges.iter().zip(path.directions) {
            if !take_step(&mut reached, *edge, *direction, s.lambda) {
                continue 'states;
            }
        }
        from = advance(list, s.states, from, &reached[..m], free, s.free);
        total = add_reached(list, amplitudes, i, from, &reached[..m], total);
    }
    total
}

// The expectation of the Wilson loop along a path. The basis goes to the beginning of the list. All is judged first.
pub fn wilson_loop(
    c: SimplicialComplex,
    lambda: usize,
    amplitudes: &[f64],
    path: Path<'_>,
    states: &mut [i32],
) -> Result<f64, Refusal>
    ensures { Answered (wilson_call (complex_of c) lambda amplitudes.now path.entry.edges.now path.entry.directions.now states.old) (answer_of result) states.new }
{
    let basis = Basis::prepare(c, lambda)?;
    if (amplitudes.len() != basis.count()) | (path.directions.len() != path.edges.len()) {
        return Err(Refusal::WrongListLength);
    }
    let w = basis.walker;
    if !path.is_right(w.n_edges) {
        return Err(Refusal::OutOfRange);
    }
    if !all_bounded(amplitudes) {
        return Err(Refusal::WrongFloat);
    }
    if states.len() < amplitudes.len() * w.n_edges {
        return Err(Refusal::NoRoom);
    }
    let s = list_states(&basis, states);
    Ok(wilson_sum(states, s, &w.free, amplitudes, path))
}
