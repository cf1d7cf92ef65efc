// The dense Hamiltonian of U(1).
ghost use Rattle.std.specs.Prelude.{◌≡◌, ℕ, ◌*◌, ◌≤◌, Float, List, length};
ghost use Rattle.mathematics.specs.Writing.{front};
ghost use Rattle.mathematics.specs.Calls.{Answered};
ghost use Rattle.answers.specs.Refusal.{answer_of};
ghost use Rattle.complex.specs.Complex.{complex_of};
ghost use Rattle.matrices.specs.Weights.{weight, Weighed, is_given, given_list};
ghost use Rattle.matrices.specs.Matrix.{Matrix, passed};
ghost use Rattle.hamiltonian.specs.Dense.{u1_entry, u1_dense, u1_dense_call};
ghost use Rattle.plaquettes.specs.Rows.{SmallRows, electric_term};
ghost use Rattle.plaquettes.specs.Targets.{BasisList};

use crate::walk::add_plaquette;
use answers::refusal::Refusal;
use complex::SimplicialComplex;
use enumeration::basis::Basis;
use matrices::coupling::{KSParams, is_u1};
use matrices::matrix::{add_entry, clear_matrix};
use matrices::terms::dense_plaquette_term;
use matrices::weights::{accept_weights, weight_at};
use plaquettes::rows::row_energy;
use plaquettes::target::{Sizes, list_states};
use triangles::{all_sides, sides_at};

// A factor times each row's sum of squares is added on the diagonal. By number: state i has row i and entry (i, i).
fn add_electric(list: &[i32], n: usize, m: usize, factor: f64, h: &mut [f64])
    requires { SmallRows list.now n m × (n * n ≤ length h.old) }
    ensures { (f : ℕ → ℕ → Float) (old : List Float) → Matrix f n old h.old → Matrix (passed f (λ i. i) (electric_term factor m list.now) n) n old h.new }
{
    for i in 0..n {
        add_entry(h, n, i, i, row_energy(list, m, i, factor));
    }
}

// The triangles of a record add their plaquettes, one after the other. By number: triangle t has weight t and its own three edges.
fn add_magnetic(
    c: SimplicialComplex,
    p: KSParams,
    weights: Option<&[f64]>,
    list: &[i32],
    s: Sizes,
    h: &mut [f64],
)
    requires { (free : List ℕ) × BasisList (complex_of c) list.now s free × Weighed (length (complex_of c).triangles) (is_given weights) (given_list weights) × (s.states * s.states ≤ length h.old) }
    ensures { (old : List Float) → Matrix (u1_entry (complex_of c) s.lambda p (weight (is_given weights.entry) (given_list weights.entry)) 0) s.states old h.old → Matrix (u1_entry (complex_of c) s.lambda p (weight (is_given weights.entry) (given_list weights.entry)) c.n_triangles) s.states old h.new }
{
    let all = all_sides(c);
    for t in 0..c.n_triangles {
        let x = dense_plaquette_term(p, weight_at(weights, t));
        add_plaquette(list, s, sides_at(&all, t), x, h);
    }
}

// The matrix goes to the beginning of a list: zeros, then the electric term, then the plaquettes.
fn write_dense(
    c: SimplicialComplex,
    p: KSParams,
    weights: Option<&[f64]>,
    list: &[i32],
    s: Sizes,
    h: &mut [f64],
)
    requires { (free : List ℕ) × BasisList (complex_of c) list.now s free × Weighed (length (complex_of c).triangles) (is_given weights) (given_list weights) × (s.states * s.states ≤ length h.old) }
    ensures { h.new ≡ front (u1_dense (complex_of c) s.lambda p (weight (is_given weights.entry) (given_list weights.entry))) h.old }
{
    clear_matrix(h, s.states);
    add_electric(list, s.states, s.edges, p.electric, h);
    add_magnetic(c, p, weights, list, s, h);
}

// The dense matrix of a record goes to the beginning of the result list, the basis to that of the work list. All is judged first.
// Weights that are not given are 1.
pub fn build_hamiltonian(
    c: SimplicialComplex,
    lambda: usize,
    p: KSParams,
    weights: Option<&[f64]>,
    states: &mut [i32],
    res: &mut [f64],
) -> Result<usize, Refusal>
    ensures { Answered (u1_dense_call (complex_of c) lambda p (is_given weights.entry) (given_list weights.entry) states.old res.old) (answer_of result) (states.new, res.new) }
{
    let basis = Basis::prepare(c, lambda)?;
    accept_weights(c.n_triangles, is_u1(p), weights)?;
    let n = basis.count();
    if (states.len() < n * basis.walker.n_edges) | (res.len() < n * n) {
        return Err(Refusal::NoRoom);
    }
    let s = list_states(&basis, states);
    write_dense(c, p, weights, states, s, res);
    Ok(n)
}
