// The words of the rows: while rows are made, the lower bits of a word hold the number of its state and the upper ones the length of its row.
ghost use Rattle.std.specs.Prelude.{◌≡◌, ℕ, ◌+◌, ◌*◌, ◌^◌, ◌<◌, ◌≤◌, get_or, length, set};
ghost use Rattle.hilbert.specs.Search.{row};
ghost use Rattle.plaquettes.specs.Rows.{SmallRows};
ghost use Rattle.moves.specs.Numbers.{number, Numbered};
ghost use Rattle.csr.specs.Words.{upper, begins, FirstWords};

use moves::number::Digits;
use plaquettes::rows::row_at;
use plaquettes::target::Sizes;

// A length goes to the upper bits of a word.
pub fn set_length(words: &mut [u32], i: usize, count: usize)
    requires { (i < length words.old) × (get_or words.old i 0 < 2 ^ 20) × (count ≤ 1024) }
    ensures { words.new ≡ set words.old i (get_or words.old i 0 + 1048576 * count) }
{
    words[i] = words[i] + 1048576 * (count as u32);
}

// The numbers of the states of a list go to the words.
pub fn write_numbers(list: &[i32], s: Sizes, digits: Digits<'_>, words: &mut [u32])
    requires { SmallRows list.now s.states s.edges × ((i : ℕ) → i < s.states → Numbered digits.lambda digits.lambda digits.free.now digits.n (row s.edges list.now i)) × (s.states ≤ length words.old) }
    ensures { FirstWords (λ i. number digits.entry.lambda digits.entry.lambda digits.entry.free.now digits.entry.n (row s.edges list.now i)) s.states words.old words.new }
{
    for (i, word) in words[..s.states].iter_mut().enumerate() {
        *word = digits.number(row_at(list, s.edges, i), digits.lambda) as u32;
    }
}

// The starts of n rows take the place of the words with their lengths, and the end of the last follows.
pub fn write_starts(words: &mut [u32], n: usize)
    requires { (n < length words.old) × (begins (upper words.old) n < 2 ^ 32) }
    ensures { FirstWords (begins (upper words.old)) (n + 1) words.old words.new }
{
    let mut at = 0;
    for word in words[..n].iter_mut() {
        let count = *word / 1048576;
        *word = at;
        at += count;
    }
    words[n] = at;
}
