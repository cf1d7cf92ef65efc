// The two-valued Hamiltonian as a dense matrix.
ghost use Rattle.std.specs.Prelude.{◌≡◌, List, ◌++◌, ℕ, ◌*◌, ◌^◌, ◌<◌, ◌≤◌, Float, get_or, length};
ghost use Rattle.std.specs.Int.Bits.{bit_xor};
ghost use Rattle.std.specs.Int.Count.{ones};
ghost use Rattle.mathematics.specs.Writing.{front};
ghost use Rattle.mathematics.specs.Calls.{Answered};
ghost use Rattle.answers.specs.Refusal.{answer_of};
ghost use Rattle.complex.specs.Complex.{complex_of};
ghost use Rattle.matrices.specs.Weights.{weight, Weighed, is_given, given_list};
ghost use Rattle.matrices.specs.Matrix.{Matrix, passed};
ghost use Rattle.su2_even_sets.specs.EvenSets.{su2_states};
ghost use Rattle.su2_quantum.specs.Dense.{su2_electric_entry, su2_entry, su2_dense, su2_dense_call, MatrixOf};
ghost use Rattle.matrices.specs.Squares.{energy};

use answers::refusal::Refusal;
use complex::SimplicialComplex;
use matrices::coupling::{KSParams, is_su2};
use matrices::electric::mask_energy;
use matrices::matrix::{add_entry, clear_matrix};
use matrices::weights::{accept_weights, weight_at};
use su2_even_sets::Forest;
use su2_masks::accepted::accepted_loops;
use su2_masks::flip::triangle_place;
use su2_masks::write_masks;
use triangles::{all_sides, sides_at};

// The energy of each state is added on the diagonal.
fn add_energies(h: &mut [f64], n: usize, factor: f64, states: &[u64])
    requires { (n ≤ 2 ^ 20) × (n * n ≤ length h.old) × (n ≤ length states.now) }
    ensures { (f : ℕ → ℕ → Float) (old : List Float) → Matrix f n old h.old → Matrix (passed f (λ i. i) (λ i. energy factor (ones (get_or states.now i 0))) n) n old h.new }
{
    for (i, state) in states[..n].iter().enumerate() {
        add_entry(h, n, i, i, mask_energy(factor, *state));
    }
}

// x is added to entry (i, i xor k) of each row i.
fn add_flips(h: &mut [f64], n: usize, k: usize, x: f64)
    requires { (n ≤ 2 ^ 20) × (n * n ≤ length h.old) × ((i : ℕ) → i < n → bit_xor i k < n) }
    ensures { (f : ℕ → ℕ → Float) (old : List Float) → Matrix f n old h.old → Matrix (passed f (λ i. bit_xor i k) (λ i. x) n) n old h.new }
{
    // By number: the entry of row i stands at i xor k.
    for i in 0..n {
        add_entry(h, n, i, i ^ k, x);
    }
}

// Each triangle adds its magnetic factor × weight to each entry of two states that it flips to each other.
fn add_triangles(
    h: &mut [f64],
    n: usize,
    c: SimplicialComplex,
    f: Forest,
    p: KSParams,
    weights: Option<&[f64]>,
)
    requires { MatrixOf (complex_of c) f n (length h.old) × Weighed (length (complex_of c).triangles) (is_given weights) (given_list weights) }
    ensures { (old : List Float) → Matrix (su2_electric_entry (complex_of c) p) n old h.old → Matrix (su2_entry (complex_of c) p (weight (is_given weights.entry) (given_list weights.entry)) (length (complex_of c).triangles)) n old h.new }
{
    let all = all_sides(c);
    // By number: triangle t has its sides and its weight.
    for t in 0..c.n_triangles {
        let place = triangle_place(f, sides_at(&all, t));
        add_flips(h, n, place, p.magnetic * weight_at(weights, t));
    }
}

// The matrix goes to the beginning of a list. Another list begins with the states. Both lists are the caller's, and stay parameters of their own.
fn write_matrix(
    h: &mut [f64],
    n: usize,
    c: SimplicialComplex,
    f: Forest,
    p: KSParams,
    weights: Option<&[f64]>,
    states: &[u64],
)
    requires { MatrixOf (complex_of c) f n (length h.old) × Weighed (length (complex_of c).triangles) (is_given weights) (given_list weights) × ((rest : List ℕ) × (states.now ≡ su2_states (complex_of c) ++ rest)) }
    ensures { h.new ≡ front (su2_dense (complex_of c) p (weight (is_given weights.entry) (given_list weights.entry))) h.old }
{
    clear_matrix(h, n);
    add_energies(h, n, p.electric, states);
    add_triangles(h, n, c, f, p, weights);
}

// All even edge sets of a record go to the beginning of one list, and the Hamiltonian on them to that of another. All is judged first.
pub fn build_su2_hamiltonian(
    c: SimplicialComplex,
    p: KSParams,
    weights: Option<&[f64]>,
    states: &mut [u64],
    res: &mut [f64],
) -> Result<usize, Refusal>
    ensures { Answered (su2_dense_call (complex_of c) p (is_given weights.entry) (given_list weights.entry) states.old res.old) (answer_of result) (states.new, res.new) }
{
    let f = accepted_loops(c)?;
    accept_weights(c.n_triangles, is_su2(p), weights)?;
    let n = 1 << f.count;
    if (states.len() < n) | (res.len() < n * n) {
        return Err(Refusal::NoRoom);
    }
    write_masks(states, f.loops());
    write_matrix(res, n, c, f, p, weights, states);
    Ok(n)
}
