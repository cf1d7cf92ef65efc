// A value as a word says it.
ghost use Rattle.std.specs.Prelude.{◌≡◌};
ghost use Rattle.checking.specs.Value.{value_in};

// The whole number that a word says: decimal digits behind at most one minus. The library takes a plus too.
pub fn value_in(word: &[u8]) -> Option<i32>
    ensures { result ≡ value_in word.now }
{
    if word.starts_with(b"+") {
        return None;
    }
    match str::from_utf8(word) {
        Ok(text) => text.parse().ok(),
        Err(_) => None,
    }
}
