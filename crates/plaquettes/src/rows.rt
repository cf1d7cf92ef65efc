// The rows of a list of states, and the electric term of one.
ghost use Rattle.std.specs.Prelude.{◌≡◌, ℕ, ◌+◌, ◌*◌, ◌<◌, ◌≤◌, length};
ghost use Rattle.hilbert.specs.Search.{row};
ghost use Rattle.plaquettes.specs.Rows.{SmallRows, electric_term};

use matrices::electric::{energy, squares};

// Row i of a list of rows of m values.
pub fn row_at(list: &[i32], m: usize, i: usize) -> &[i32]
    requires { i * m + m ≤ length list.now }
    ensures { result.now ≡ row m list.now i }
{
    let from = i * m;
    &list[from..from + m]
}

// A factor times the sum of squares of row i, which has m values.
#[tactic(auto, unfolding(crate::specs::Rows::electric_term))]
pub fn row_energy(list: &[i32], m: usize, i: usize, factor: f64) -> f64
    requires { (n : ℕ) × SmallRows list.now n m × (i < n) }
    ensures { result ≡ electric_term factor m list.now i }
{
    energy(factor, squares(row_at(list, m, i)))
}
