// The square of the electric field on each edge.
#![tactic(auto)]

ghost use Rattle.std.specs.Prelude.{◌≡◌, List, ℕ, ◌*◌, ◌^◌, ◌≤◌, Float, pos, get_or, length};
ghost use Rattle.std.specs.Float.{binary64};
ghost use Rattle.std.specs.Float.Ieee.{add};
ghost use Rattle.mathematics.specs.Calls.{Answered};
ghost use Rattle.answers.specs.Refusal.{answer_of};
ghost use Rattle.complex.specs.Complex.{complex_of};
ghost use Rattle.hilbert.specs.Search.{row};
ghost use Rattle.electric.specs.Electric.{field_term, field_sum, Begins, electric_call};

use answers::refusal::Refusal;
use complex::SimplicialComplex;
use enumeration::basis::Basis;
use matrices::weights::all_bounded;

// (square × n) × n
#[tactic(auto, unfolding(crate::specs::Electric::field_term))]
fn field_term(square: f64, n: i32) -> f64
    ensures { result ≡ field_term square n }
{
    square * f64::from(n) * f64::from(n)
}

// (square × n) × n is added to each of the first entries, n the value of a state on its edge.
fn add_state(state: &[i32], square: f64, res: &mut [f64])
    requires { length state.now ≤ length res.old }
    ensures { (f : ℕ → Float) (old : List Float) → Begins f (length state.now) old res.old → Begins (λ e. add binary64 (f e) (field_term square (get_or state.now e (pos 0)))) (length state.now) old res.new }
{
    for (e, n) in state.iter().enumerate() {
        res[e] += field_term(square, *n);
    }
}

// The sums over rows of m values, one for each amplitude, go to the beginning of the result. The rows are no chunks: a row may have no
// values.
fn write_sums(list: &[i32], m: usize, amplitudes: &[f64], res: &mut [f64])
    requires { (length amplitudes.now ≤ 2 ^ 20) × (m ≤ 63) × (length amplitudes.now * m ≤ length list.now) × (m ≤ length res.old) }
    ensures { Begins (λ e. field_sum amplitudes.now (λ i. get_or (row m list.now i) e (pos 0)) (length amplitudes.now)) m res.old res.new }
{
    res[..m].fill(0.0);
    for (i, amplitude) in amplitudes.iter().enumerate() {
        let at = i * m;
        let square = *amplitude * *amplitude;
        add_state(&list[at..at + m], square, res);
    }
}

// The sum of ((amplitude × amplitude) × n) × n over the states goes to the beginning of the result, for each edge; the basis goes to that
// of the work list. All is judged first.
pub fn electric_field_sq(
    c: SimplicialComplex,
    lambda: usize,
    amplitudes: &[f64],
    states: &mut [i32],
    res: &mut [f64],
) -> Result<usize, Refusal>
    ensures { Answered (electric_call (complex_of c) lambda amplitudes.now states.old res.old) (answer_of result) (states.new, res.new) }
{
    let basis = Basis::prepare(c, lambda)?;
    if amplitudes.len() != basis.count() {
        return Err(Refusal::WrongListLength);
    }
    if !all_bounded(amplitudes) {
        return Err(Refusal::WrongFloat);
    }
    let m = basis.walker.n_edges;
    if (states.len() < amplitudes.len() * m) | (res.len() < m) {
        return Err(Refusal::NoRoom);
    }
    basis.write(states);
    write_sums(states, m, amplitudes, res);
    Ok(m)
}
