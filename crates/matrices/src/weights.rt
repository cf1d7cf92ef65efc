// The weights of the triangles: given, or 1 everywhere.
ghost use Rattle.std.specs.Prelude.{◌≡◌, true, ◌<◌, length, not, ◌&&◌, eqb};
ghost use Rattle.mathematics.specs.Tests.{every_entry};
ghost use Rattle.mathematics.specs.Refusals.{first};
ghost use Rattle.matrices.specs.Weights.{within, bounded, weight, weights_tests, vector_tests, is_given, given_list};
ghost use Rattle.answers.specs.Refusal.{judged};

use answers::refusal::Refusal;

// Whether a float is from -limit to limit; the tests are written so that what is not a number fails.
fn within(limit: f64, x: f64) -> bool
    ensures { result ≡ within limit x }
{
    (-limit <= x) & (x <= limit)
}

// Whether every float of a list is. `all` stops early, and so takes 1.0 ns an entry; this loop takes 0.6 ns.
pub fn all_within(limit: f64, list: &[f64]) -> bool
    ensures { result ≡ every_entry (within limit) list.now }
{
    let mut so_far = true;
    for x in list {
        so_far &= within(limit, *x);
    }
    so_far
}

// Whether every float is from -2^32 to 2^32.
#[tactic(auto, using(crate::proofs::Literals::limit), unfolding(crate::specs::Weights::bounded))]
pub fn all_bounded(list: &[f64]) -> bool
    ensures { result ≡ every_entry bounded list.now }
{
    all_within(4294967296.0, list)
}

// Whether weights are given that are not one for each of n triangles.
#[tactic(auto, unfolding(crate::specs::Weights::is_given, crate::specs::Weights::given_list))]
fn miscounted(weights: Option<&[f64]>, n: usize) -> bool
    ensures { result ≡ (is_given weights.entry && not (eqb (length (given_list weights.entry)) n)) }
{
    weights.is_some_and(|list| list.len() != n)
}

// 12 for the number of the given weights, 14 for a coupling that is not right or a weight out of its range. Whether the factors are those of
// the mode is told as a bool, here and below: the caller judges it, whose mode it is.
#[tactic(auto, using(crate::proofs::Weighing::number_told, crate::proofs::Weighing::coupling_told, crate::proofs::Weighing::absent_told, crate::proofs::Weighing::range_told, crate::proofs::Weighing::right_told))]
pub fn accept_weights(
    n_triangles: usize,
    right: bool,
    weights: Option<&[f64]>,
) -> Result<(), Refusal>
    ensures { judged result ≡ first (weights_tests n_triangles right (is_given weights.entry) (given_list weights.entry)) }
{
    if miscounted(weights, n_triangles) {
        return Err(Refusal::WrongListLength);
    }
    if !right {
        return Err(Refusal::WrongFloat);
    }
    match weights {
        Some(list) if !all_bounded(list) => Err(Refusal::WrongFloat),
        _ => Ok(()),
    }
}

// 12 for the number of the given weights or of the amplitudes, 14 for a coupling that is not right or for a weight or an amplitude out of
// its range.
pub fn accept_vector(
    n_triangles: usize,
    right: bool,
    weights: Option<&[f64]>,
    n: usize,
    vector: &[f64],
) -> Result<(), Refusal>
    ensures { judged result ≡ first (vector_tests n vector.now n_triangles right (is_given weights.entry) (given_list weights.entry)) }
{
    if miscounted(weights, n_triangles) | (vector.len() != n) {
        return Err(Refusal::WrongListLength);
    }
    accept_weights(n_triangles, right, weights)?;
    if !all_bounded(vector) {
        return Err(Refusal::WrongFloat);
    }
    Ok(())
}

// The weight of triangle t.
#[tactic(auto, using(crate::proofs::Literals::one), unfolding(crate::specs::Weights::weight))]
pub fn weight_at(weights: Option<&[f64]>, t: usize) -> f64
    requires { is_given weights ≡ true → t < length (given_list weights) }
    ensures { result ≡ weight (is_given weights.entry) (given_list weights.entry) t }
{
    weights.map_or(1.0, |list| list[t])
}
