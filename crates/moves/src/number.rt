// The number of an assignment: its values on the free edges are the digits, in base 2 lambda + 1.
ghost use Rattle.std.specs.Prelude.{◌≡◌, ◌≤◌, pos, nat_abs, ◌+ℤ◌};
ghost use Rattle.moves.specs.Numbers.{number, Numbered};

use numbers::sizes::MOST_EDGES;

// The digit of a value from -low to low.
fn digit(x: i32, low: usize) -> usize
    requires { (nat_abs x ≤ low) × (low ≤ 1000) }
    ensures { result ≡ nat_abs (x +ℤ pos low) }
{
    (x + low as i32) as usize
}

// The places of the digits: the first n entries of the walker's list are the free edges. The truncation gives the base.
#[derive(Clone, Copy)]
pub struct Digits<'a> {
    pub free: &'a [u8; MOST_EDGES],
    pub n: usize,
    pub lambda: usize,
}

impl Digits<'_> {
    // The number of a row with values from -low to low: the last free edge has the first digit.
    pub fn number(&self, row: &[i32], low: usize) -> usize
        requires { Numbered self.now.lambda low self.now.free.now self.now.n row.now }
        ensures { result ≡ number self.now.lambda low self.now.free.now self.now.n row.now }
    {
        let free = self.free;
        let base = 2 * self.lambda + 1;
        let mut a = 0;
        for edge in free[..self.n].iter().rev() {
            a = a * base + digit(row[usize::from(*edge)], low);
        }
        a
    }
}
