// The product of the Hamiltonian with a vector: the electric part, then the plaquettes of the triangles.
ghost use Rattle.std.specs.Prelude.{◌≡◌, List, ℕ, ◌≤◌, length};
ghost use Rattle.mathematics.specs.Writing.{front};
ghost use Rattle.mathematics.specs.Calls.{Answered};
ghost use Rattle.answers.specs.Refusal.{answer_of};
ghost use Rattle.complex.specs.Complex.{complex_of};
ghost use Rattle.matrices.specs.Weights.{weight, Weighed, is_given, given_list};
ghost use Rattle.plaquettes.specs.Rows.{SmallRows};
ghost use Rattle.plaquettes.specs.Targets.{BasisList};
ghost use Rattle.lanczos.specs.Matvec.{triangles_added, u1_product, u1_product_call};
ghost use Rattle.lanczos.specs.Walk.{electric_parts};
ghost use Rattle.lanczos.specs.Runs.{FirstCycle};

use crate::state_runs::{RunTables, cycle_edges};
use crate::walk::add_plaquette;
use answers::refusal::Refusal;
use complex::SimplicialComplex;
use enumeration::basis::Basis;
use matrices::coupling::{KSParams, is_u1};
use matrices::terms::row_plaquette_term;
use matrices::weights::{accept_vector, weight_at};
use plaquettes::rows::row_energy;
use plaquettes::target::{Sizes, list_states};
use triangles::{all_sides, sides_at};

// The electric part goes to the beginning of the result. By number: a proof knows nothing of what a loop over a zip with iter_mut wrote.
fn write_electric(list: &[i32], n: usize, m: usize, factor: f64, vector: &[f64], res: &mut [f64])
    requires { SmallRows list.now n m × (n ≤ length vector.now) × (n ≤ length res.old) }
    ensures { res.new ≡ front (electric_parts factor m list.now vector.now n) res.old }
{
    for (i, sum) in res[..n].iter_mut().enumerate() {
        *sum = 0.0 + row_energy(list, m, i, factor) * vector[i];
    }
}

// The triangles of a record add their plaquettes, one after the other. By number: triangle t has weight t and its own three edges.
fn add_magnetic(
    c: SimplicialComplex,
    p: KSParams,
    weights: Option<&[f64]>,
    vector: &[f64],
    list: &[i32],
    s: Sizes,
    cycle: &[i8],
    res: &mut [f64],
)
    requires { (free : List ℕ) × BasisList (complex_of c) list.now s free × Weighed (length (complex_of c).triangles) (is_given weights) (given_list weights) × (s.states ≤ length vector.now) × (s.states ≤ length res.old) × FirstCycle (complex_of c) cycle.now }
    ensures { res.new ≡ triangles_added (complex_of c) s.lambda p (weight (is_given weights.entry) (given_list weights.entry)) vector.now c.n_triangles res.old }
{
    let all = all_sides(c);
    let edges = cycle_edges(cycle);
    for t in 0..c.n_triangles {
        let x = row_plaquette_term(p, weight_at(weights, t));
        let tables = RunTables {
            list,
            sizes: s,
            sides: sides_at(&all, t),
            edges: &edges,
            cycle,
        };
        add_plaquette(&tables, x, vector, res);
    }
}

// The product goes to the beginning of the result. The lists are the caller's, and stay parameters of their own, here, above and below.
fn write_product(
    c: SimplicialComplex,
    p: KSParams,
    weights: Option<&[f64]>,
    vector: &[f64],
    list: &[i32],
    s: Sizes,
    cycle: &[i8],
    res: &mut [f64],
)
    requires { (free : List ℕ) × BasisList (complex_of c) list.now s free × Weighed (length (complex_of c).triangles) (is_given weights) (given_list weights) × (s.states ≤ length vector.now) × (s.states ≤ length res.old) × FirstCycle (complex_of c) cycle.now }
    ensures { res.new ≡ front (u1_product (complex_of c) s.lambda p (weight (is_given weights.entry) (given_list weights.entry)) vector.now) res.old }
{
    write_electric(list, s.states, s.edges, p.electric, vector, res);
    add_magnetic(c, p, weights, vector, list, s, cycle, res);
}

// The product of a record's Hamiltonian with a vector goes to the beginning of the result list, the basis to that of the work list. All is
// judged first. Weights that are not given are 1.
pub fn hamiltonian_matvec(
    c: SimplicialComplex,
    lambda: usize,
    p: KSParams,
    weights: Option<&[f64]>,
    vector: &[f64],
    states: &mut [i32],
    res: &mut [f64],
) -> Result<usize, Refusal>
    ensures { Answered (u1_product_call (complex_of c) lambda p (is_given weights.entry) (given_list weights.entry) vector.now states.old res.old) (answer_of result) (states.new, res.new) }
{
    let basis = Basis::prepare(c, lambda)?;
    let n = basis.count();
    accept_vector(c.n_triangles, is_u1(p), weights, n, vector)?;
    if (states.len() < n * basis.walker.n_edges) | (res.len() < n) {
        return Err(Refusal::NoRoom);
    }
    let s = list_states(&basis, states);
    let cycles = basis.walker.cycles;
    let cycle = &cycles[..basis.walker.n_edges];
    write_product(c, p, weights, vector, states, s, cycle, res);
    Ok(n)
}
