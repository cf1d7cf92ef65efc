// The expectation of a Wilson loop in the two-valued mode: by the set of a path's edges, or by its passes modulo two.
#![tactic(auto)]

ghost use Rattle.std.specs.Prelude.{◌≡◌, ℕ, ◌<◌, ◌≤◌, get_or, length};
ghost use Rattle.std.specs.Float.{binary64};
ghost use Rattle.std.specs.Float.Ieee.{neg, of_int};
ghost use Rattle.mathematics.specs.Refusals.{first};
ghost use Rattle.mathematics.specs.Calls.{Answered};
ghost use Rattle.answers.specs.Refusal.{answer_of, judged};
ghost use Rattle.complex.specs.Complex.{complex_of};
ghost use Rattle.matrices.specs.Coupling.{float_of};
ghost use Rattle.su2_loops.specs.Loop.{path_right, loop_tests, expectation_call, su2_loop_call, su2_passes_call, MaskMade, Counts, mask_sum};
ghost use Rattle.su2_loops.specs.Parity.{parity_sign, ExactlyWhereOdd};

use answers::refusal::Refusal;
use complex::SimplicialComplex;
use matrices::weights::all_bounded;
use su2_masks::accepted::accepted_loops;
use su2_masks::write_masks;

// Whether every edge that the path names is below n.
fn path_right(path: &[u8], n: usize) -> bool
    ensures { result ≡ path_right n path.now }
{
    let mut so_far = true;
    for edge in path {
        so_far &= usize::from(*edge) < n;
    }
    so_far
}

// 12 for the number of the amplitudes, 13 for an edge of the path that is not there, 14 for an amplitude out of its range.
#[tactic(auto, using(crate::proofs::Judging::number_told, crate::proofs::Judging::path_told, crate::proofs::Judging::range_told, crate::proofs::Judging::none_told))]
fn accept_loop(n_states: usize, n_edges: usize, vector: &[f64], path: &[u8]) -> Result<(), Refusal>
    ensures { judged result ≡ first (loop_tests n_states n_edges vector.now path.now) }
{
    if vector.len() != n_states {
        return Err(Refusal::WrongListLength);
    }
    if !path_right(path, n_edges) {
        return Err(Refusal::OutOfRange);
    }
    if !all_bounded(vector) {
        return Err(Refusal::WrongFloat);
    }
    Ok(())
}

// The edges of a path that count, as a mask: `put` says what a step makes of the mask and its edge.
fn counted_mask<F: Fn(u64, u64) -> u64>(path: &[u8], put: F) -> u64
    requires low { (k : ℕ) → k < length path.now → get_or path.now k 0 < 64 }
    requires callable { F.IsAlwaysCallable put }
    ensures { MaskMade (F.post put) path.now result }
{
    let mut mask = 0;
    for step in path {
        mask = put(mask, 1 << *step);
    }
    mask
}

// -1.0 for an odd count, else 1.0. As docs/SCOPE.md has it, it is 1 minus twice the remainder by two, on whole numbers and without a branch.
// Then it is turned into a float.
fn sign_of(count: u32) -> f64
    ensures value { result ≡ of_int binary64 (parity_sign count) }
    ensures exactly_where_odd { ExactlyWhereOdd count (neg (float_of 1)) (float_of 1) result }
{
    let remainder = (count % 2) as i32;
    (1 - 2 * remainder) as f64
}

// The squares of the amplitudes, each with the sign of how many edges its state shares with a mask.
fn mask_sum(vector: &[f64], states: &[u64], mask: u64) -> f64
    requires { length vector.now ≤ length states.now }
    ensures { result ≡ mask_sum vector.now states.now mask (length vector.now) }
{
    let mut sum = 0.0;
    for (amplitude, state) in vector.iter().zip(states) {
        let sign = sign_of(u64::count_ones(*state & mask));
        sum += *amplitude * *amplitude * sign;
    }
    sum
}

// All even edge sets of a record go to the beginning of the list, and the expectation of a path's loop on them is told, by the edges that count:
// `put` says what a step makes of their mask and its edge. All is judged first.
fn loop_expectation<F: Fn(u64, u64) -> u64>(
    c: SimplicialComplex,
    vector: &[f64],
    path: &[u8],
    put: F,
    states: &mut [u64],
) -> Result<f64, Refusal>
    requires callable { F.IsAlwaysCallable put }
    ensures { (counts : _) → Counts (F.post put) path.now counts → Answered (expectation_call (complex_of c) vector.now path.now counts states.old) (answer_of result) states.new }
{
    let f = accepted_loops(c)?;
    let n = 1 << f.count;
    accept_loop(n, c.n_edges, vector, path)?;
    if states.len() < n {
        return Err(Refusal::NoRoom);
    }
    write_masks(states, f.loops());
    Ok(mask_sum(vector, states, counted_mask(path, put)))
}

// The expectation of the loop of a path's edge set: an edge that is named twice counts once. The list then begins with all even edge sets. All
// is judged first.
pub fn su2_wilson_loop(
    c: SimplicialComplex,
    vector: &[f64],
    path: &[u8],
    states: &mut [u64],
) -> Result<f64, Refusal>
    ensures { Answered (su2_loop_call (complex_of c) vector.now path.now states.old) (answer_of result) states.new }
{
    loop_expectation(c, vector, path, |mask, edge| mask | edge, states)
}

// The same by passes: each edge counts by its number of passes modulo two, so an edge that is passed twice does not count.
pub fn su2_wilson_passes(
    c: SimplicialComplex,
    vector: &[f64],
    path: &[u8],
    states: &mut [u64],
) -> Result<f64, Refusal>
    ensures { Answered (su2_passes_call (complex_of c) vector.now path.now states.old) (answer_of result) states.new }
{
    loop_expectation(c, vector, path, |mask, edge| mask ^ edge, states)
}
