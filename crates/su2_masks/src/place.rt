// The place of a mask in the list of even edge sets, read off its closing edges.
ghost use Rattle.std.specs.Prelude.{◌≡◌, ℕ, ◌<◌, ◌≤◌, get_or, length};
ghost use Rattle.mathematics.specs.Bits.{bit};
ghost use Rattle.su2_even_sets.specs.Loops.{closing_bits};

// Bit i of a mask.
fn bit_of(x: u64, i: usize) -> usize
    requires { i < 64 }
    ensures { (result ≡ bit x i) × (result < 2) }
{
    ((x >> i) % 2) as usize
}

// The bits of a mask at some closing edges, as a number.
pub fn closing_bits(closing: &[u8], x: u64) -> usize
    requires { (length closing.now ≤ 20) × ((j : ℕ) → j < length closing.now → get_or closing.now j 0 < 64) }
    ensures { result ≡ closing_bits closing.now x (length closing.now) }
{
    let mut place = 0;
    let mut unit = 1;
    for edge in closing {
        place += bit_of(x, usize::from(*edge)) * unit;
        unit += unit;
    }
    place
}
