// One number in bytes. A byte past the end counts as 0.
ghost use Rattle.std.specs.Prelude.{◌≡◌, ◌+◌, ◌<◌, ◌^◌, get_or};
ghost use Rattle.recorded.specs.Bytes.{number_at, float_of};

#[tactic(auto, using(crate::proofs::Numbers::byte_there))]
pub fn byte_at(bytes: &[u8], at: usize) -> u8
    ensures { result ≡ get_or bytes.now at 0 }
{
    bytes.get(at).copied().unwrap_or(0)
}

#[tactic(auto, using(crate::proofs::Numbers::four_bytes))]
pub fn u32_at(bytes: &[u8], at: usize) -> u32
    requires { at + 4 < 2 ^ 64 }
    ensures { result ≡ number_at 4 bytes.now at }
{
    u32::from_le_bytes([
        byte_at(bytes, at),
        byte_at(bytes, at + 1),
        byte_at(bytes, at + 2),
        byte_at(bytes, at + 3),
    ])
}

#[tactic(auto, using(crate::proofs::Numbers::eight_bytes))]
pub fn u64_at(bytes: &[u8], at: usize) -> u64
    requires { at + 8 < 2 ^ 64 }
    ensures { result ≡ number_at 8 bytes.now at }
{
    u64::from_le_bytes([
        byte_at(bytes, at),
        byte_at(bytes, at + 1),
        byte_at(bytes, at + 2),
        byte_at(bytes, at + 3),
        byte_at(bytes, at + 4),
        byte_at(bytes, at + 5),
        byte_at(bytes, at + 6),
        byte_at(bytes, at + 7),
    ])
}

// The float of a pattern of bits; 0.0 for the pattern of a NaN. Without their sign these are above the pattern of the infinity.
#[tactic(auto, using(crate::proofs::Numbers::nan_none, crate::proofs::Numbers::no_nan, crate::proofs::Numbers::float_is_of))]
pub fn float_at(bytes: &[u8], at: usize) -> f64
    requires { at + 8 < 2 ^ 64 }
    ensures { result ≡ float_of (number_at 8 bytes.now at) }
{
    let n = u64_at(bytes, at);
    if 0x7ff0_0000_0000_0000 < n % 0x8000_0000_0000_0000 {
        return 0.0;
    }
    f64::from_bits(n)
}
