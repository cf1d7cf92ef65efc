// The product of the two-valued Hamiltonian with a vector, without a matrix.
#![tactic(auto)]

ghost use Rattle.std.specs.Prelude.{◌≡◌, List, ◌++◌, map, ℕ, ◌+◌, ◌^◌, ◌<◌, ◌≤◌, get_or, length};
ghost use Rattle.std.specs.Int.Bits.{bit_xor};
ghost use Rattle.std.specs.Float.{binary64, nan};
ghost use Rattle.std.specs.Float.Ieee.{add};
ghost use Rattle.mathematics.specs.Counting.{below};
ghost use Rattle.mathematics.specs.Writing.{front};
ghost use Rattle.mathematics.specs.Calls.{Answered};
ghost use Rattle.answers.specs.Refusal.{answer_of};
ghost use Rattle.complex.specs.Complex.{complex_of};
ghost use Rattle.matrices.specs.Weights.{weight, Weighed, is_given, given_list};
ghost use Rattle.su2_even_sets.specs.EvenSets.{su2_states};
ghost use Rattle.su2_products.specs.Product.{su2_product, su2_product_call, listed_part, flip_part, listed_product_at, BlockFits, ProductOf};

use answers::refusal::Refusal;
use complex::SimplicialComplex;
use matrices::coupling::{KSParams, is_su2};
use matrices::electric::mask_energy;
use matrices::weights::accept_vector;
use su2_even_sets::Forest;
use su2_masks::accepted::accepted_loops;
use su2_masks::write_masks;
use su2_rows::tables::Flips;

// The electric parts of the states from a place on go into a block. By number: a proof knows nothing of what a loop over a zip with iter_mut wrote.
fn write_electric(block: &mut [f64], from: usize, electric: f64, states: &[u64], vector: &[f64])
    requires { (from + length block.old ≤ length states.now) × (from + length block.old ≤ length vector.now) }
    ensures { block.new ≡ map (λ i. listed_part electric states.now vector.now (from + i)) (below (length block.old)) }
{
    for (i, x) in block.iter_mut().enumerate() {
        let mask = states[from + i];
        let amplitude = vector[from + i];
        *x = 0.0 + mask_energy(electric, mask) * amplitude;
    }
}

// Each state from a place on gets a term times the amplitude at its place xor k. By number: that place is reckoned from the state's own.
fn add_flips(block: &mut [f64], from: usize, k: usize, term: f64, vector: &[f64])
    requires { (from + length block.old ≤ length vector.now) × ((i : ℕ) → i < from + length block.old → bit_xor i k < length vector.now) }
    ensures { block.new ≡ map (λ i. add binary64 (get_or block.old i nan) (flip_part term vector.now k (from + i))) (below (length block.old)) }
{
    for (i, x) in block.iter_mut().enumerate() {
        *x += term * vector[(from + i) ^ k];
    }
}

// The product at the states from a place on goes into a block.
fn write_block(
    block: &mut [f64],
    from: usize,
    electric: f64,
    states: &[u64],
    flips: &Flips,
    vector: &[f64],
)
    requires { BlockFits from (length block.old) states.now flips.now.places flips.now.terms vector.now flips.now.count }
    ensures { block.new ≡ map (λ i. listed_product_at electric states.now flips.now.places flips.now.terms vector.now flips.now.count (from + i)) (below (length block.old)) }
{
    write_electric(block, from, electric, states, vector);
    let n = flips.count;
    for (place, term) in flips.places[..n].iter().zip(&flips.terms[..n]) {
        add_flips(block, from, *place as usize, *term, vector);
    }
}

// The product at the first n states goes to the beginning of the result, in blocks that a fast cache holds.
fn write_blocks(
    n: usize,
    electric: f64,
    states: &[u64],
    flips: &Flips,
    vector: &[f64],
    res: &mut [f64],
)
    requires { (n ≤ 2 ^ 20) × BlockFits 0 n states.now flips.now.places flips.now.terms vector.now flips.now.count × (n ≤ length res.old) }
    ensures { res.new ≡ front (map (listed_product_at electric states.now flips.now.places flips.now.terms vector.now flips.now.count) (below n)) res.old }
{
    // By number: a block is reckoned from the place of its first state.
    for from in (0..n).step_by(1024) {
        let to = n.min(from + 1024);
        write_block(&mut res[from..to], from, electric, states, flips, vector);
    }
}

// The product goes to the beginning of the result. Another list begins with the states. All lists are the caller's, and stay parameters of their own.
fn write_product(
    n: usize,
    c: SimplicialComplex,
    f: Forest,
    p: KSParams,
    weights: Option<&[f64]>,
    vector: &[f64],
    states: &[u64],
    res: &mut [f64],
)
    requires { ProductOf (complex_of c) f n (length vector.now) (length res.old) × Weighed (length (complex_of c).triangles) (is_given weights) (given_list weights) × ((rest : List ℕ) × (states.now ≡ su2_states (complex_of c) ++ rest)) }
    ensures { res.new ≡ front (su2_product (complex_of c) p (weight (is_given weights.entry) (given_list weights.entry)) vector.now) res.old }
{
    let flips = Flips::of(c, f, p, weights);
    write_blocks(n, p.electric, states, &flips, vector, res);
}

// All even edge sets of a record go to the beginning of one list, and the product of the Hamiltonian on them with a vector to that of another.
// All is judged first.
pub fn su2_hamiltonian_matvec(
    c: SimplicialComplex,
    p: KSParams,
    weights: Option<&[f64]>,
    vector: &[f64],
    states: &mut [u64],
    res: &mut [f64],
) -> Result<usize, Refusal>
    ensures { Answered (su2_product_call (complex_of c) p (is_given weights.entry) (given_list weights.entry) vector.now states.old res.old) (answer_of result) (states.new, res.new) }
{
    let f = accepted_loops(c)?;
    let n = 1 << f.count;
    accept_vector(c.n_triangles, is_su2(p), weights, n, vector)?;
    if (states.len() < n) | (res.len() < n) {
        return Err(Refusal::NoRoom);
    }
    write_masks(states, f.loops());
    write_product(n, c, f, p, weights, vector, states, res);
    Ok(n)
}
