// The numbers that lists of bytes hold.
ghost use Rattle.std.specs.Prelude.{◌≡◌, ℕ, Bool, ◌+◌, ◌<◌, ◌^◌, eqb, pos};
ghost use Rattle.std.specs.Float.{nan};
ghost use Rattle.std.specs.Int.{w8, w32};
ghost use Rattle.std.proofs.Common.{to_z, rules};
ghost use Rattle.mathematics.specs.Integers.{equal};
ghost use Rattle.recorded.specs.Bytes.{number_at, float_of, float_is};

use crate::number::{byte_at, float_at, u32_at, u64_at};

// A number of a width in bytes: how it is read at a place, and whether it is the one that stands there. A byte past the end counts as 0. The
// impls of the integers are written out: each has a width and a reading of its own. A macro may write an `impl`, but no ghost member and no
// clause, and each of these has six ghost members.
pub trait Entry: Copy {
    ghost WIDTH: { ℕ };

    ghost taken: { ℕ → Self };

    ghost is: { Self → ℕ → Bool };

    ghost blank: { Self };

    const WIDTH: usize;

    fn at(bytes: &[u8], place: usize) -> Self
        requires { place + 8 < 2 ^ 64 }
        ensures { result ≡ taken (number_at WIDTH bytes.now place) };

    fn is_at(self, bytes: &[u8], place: usize) -> bool
        requires { place + 8 < 2 ^ 64 }
        ensures { result ≡ is self (number_at WIDTH bytes.now place) };

    ghost some_width: { 0 < WIDTH };

    ghost small_width: { WIDTH < 9 };
}

impl Entry for u8 {
    ghost WIDTH = { 1 };

    ghost taken = { λ n. n };

    ghost is = { eqb };

    ghost blank = { 0 };

    ghost some_width = { Prim.search rules };

    ghost small_width = { Prim.search rules };

    const WIDTH: usize = 1;

    #[tactic(auto, using(crate::proofs::Numbers::one_byte))]
    fn at(bytes: &[u8], place: usize) -> u8 {
        byte_at(bytes, place)
    }

    #[tactic(auto, using(crate::proofs::Numbers::one_byte))]
    fn is_at(self, bytes: &[u8], place: usize) -> bool {
        self == byte_at(bytes, place)
    }
}

impl Entry for i8 {
    ghost WIDTH = { 1 };

    ghost taken = { to_z w8 };

    ghost is = { λ x n. equal x (to_z w8 n) };

    ghost blank = { pos 0 };

    ghost some_width = { Prim.search rules };

    ghost small_width = { Prim.search rules };

    const WIDTH: usize = 1;

    #[tactic(auto, using(crate::proofs::Numbers::one_byte))]
    fn at(bytes: &[u8], place: usize) -> i8 {
        byte_at(bytes, place).cast_signed()
    }

    #[tactic(auto, using(crate::proofs::Numbers::one_byte, mathematics::proofs::Signed::equal_bits))]
    fn is_at(self, bytes: &[u8], place: usize) -> bool {
        self == byte_at(bytes, place).cast_signed()
    }
}

impl Entry for i32 {
    ghost WIDTH = { 4 };

    ghost taken = { to_z w32 };

    ghost is = { λ x n. equal x (to_z w32 n) };

    ghost blank = { pos 0 };

    ghost some_width = { Prim.search rules };

    ghost small_width = { Prim.search rules };

    const WIDTH: usize = 4;

    fn at(bytes: &[u8], place: usize) -> i32 {
        u32_at(bytes, place).cast_signed()
    }

    #[tactic(auto, using(mathematics::proofs::Signed::equal_bits))]
    fn is_at(self, bytes: &[u8], place: usize) -> bool {
        self == u32_at(bytes, place).cast_signed()
    }
}

impl Entry for u32 {
    ghost WIDTH = { 4 };

    ghost taken = { λ n. n };

    ghost is = { eqb };

    ghost blank = { 0 };

    ghost some_width = { Prim.search rules };

    ghost small_width = { Prim.search rules };

    const WIDTH: usize = 4;

    fn at(bytes: &[u8], place: usize) -> u32 {
        u32_at(bytes, place)
    }

    fn is_at(self, bytes: &[u8], place: usize) -> bool {
        self == u32_at(bytes, place)
    }
}

impl Entry for u64 {
    ghost WIDTH = { 8 };

    ghost taken = { λ n. n };

    ghost is = { eqb };

    ghost blank = { 0 };

    ghost some_width = { Prim.search rules };

    ghost small_width = { Prim.search rules };

    const WIDTH: usize = 8;

    fn at(bytes: &[u8], place: usize) -> u64 {
        u64_at(bytes, place)
    }

    fn is_at(self, bytes: &[u8], place: usize) -> bool {
        self == u64_at(bytes, place)
    }
}

// A float is compared by its bits: a NaN is none, and 0.0 and -0.0 differ.
impl Entry for f64 {
    ghost WIDTH = { 8 };

    ghost taken = { float_of };

    ghost is = { float_is };

    ghost blank = { nan };

    ghost some_width = { Prim.search rules };

    ghost small_width = { Prim.search rules };

    const WIDTH: usize = 8;

    fn at(bytes: &[u8], place: usize) -> f64 {
        float_at(bytes, place)
    }

    #[tactic(auto, unfolding(crate::specs::Bytes::float_is))]
    fn is_at(self, bytes: &[u8], place: usize) -> bool {
        !self.is_nan() && self.to_bits() == u64_at(bytes, place)
    }
}
