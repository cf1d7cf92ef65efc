// A matrix at the beginning of a list, row by row.
ghost use Rattle.std.specs.Prelude.{◌≡◌, ◌*◌, ◌^◌, ◌<◌, ◌≤◌, length};
ghost use Rattle.matrices.specs.Coupling.{float_of};
ghost use Rattle.matrices.specs.Matrix.{Matrix, with_added};

// The list begins with a matrix of zeros.
pub fn clear_matrix(h: &mut [f64], n: usize)
    requires { (n ≤ 2 ^ 20) × (n * n ≤ length h.old) }
    ensures { Matrix (λ i j. float_of 0) n h.old h.new }
{
    h[..n * n].fill(0.0);
}

// x is added to entry (i, j).
#[tactic(auto, using(crate::proofs::Matrices::in_matrix, crate::proofs::Matrices::few_entries))]
pub fn add_entry(h: &mut [f64], n: usize, i: usize, j: usize, x: f64)
    requires { (n ≤ 2 ^ 20) × (n * n ≤ length h.old) × (i < n) × (j < n) }
    ensures { h.new ≡ with_added n i j x h.old }
{
    h[i * n + j] += x;
}
