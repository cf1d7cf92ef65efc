// What a triangle adds to an entry of a matrix of U(1).
ghost use Rattle.std.specs.Prelude.{◌≡◌};
ghost use Rattle.matrices.specs.Terms.{dense_plaquette_term, row_plaquette_term};

use crate::coupling::KSParams;

// What the plaquette of a triangle with a weight adds to the dense matrix.
#[tactic(auto, using(crate::proofs::Literals::half), unfolding(crate::specs::Terms::dense_plaquette_term))]
pub fn dense_plaquette_term(p: KSParams, weight: f64) -> f64
    ensures { result ≡ dense_plaquette_term p weight }
{
    p.magnetic * weight * 0.5
}

// What it gives to the row lists. The order of the factors decides how they round, so both stand, as in the Rust.
#[tactic(auto, using(crate::proofs::Literals::half), unfolding(crate::specs::Terms::row_plaquette_term))]
pub fn row_plaquette_term(p: KSParams, weight: f64) -> f64
    ensures { result ≡ row_plaquette_term p weight }
{
    p.magnetic * 0.5 * weight
}
