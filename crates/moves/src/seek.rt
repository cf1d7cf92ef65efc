// A place by its number, in a list of words whose lower bits rise.
ghost use Rattle.std.specs.Prelude.{◌≡◌, ◌-◌, ◌^◌, ◌≤◌, ◌<◌, length};
ghost use Rattle.moves.specs.Numbers.{sought, lower, number_in};

// The lower 20 bits of a word.
#[tactic(auto, unfolding(crate::specs::Numbers::lower))]
pub fn lower(word: u32) -> usize
    ensures { (result ≡ lower word) × (result < 2 ^ 20) }
{
    (word % 1048576) as usize
}

// The first place from `from` on whose number, with 2^20 added, is not below `wanted`, or the number of the words: what is told is the place
// from which the next search goes on. By number: the answer is a place among all words.
pub fn seek(words: &[u32], from: usize, wanted: usize) -> usize
    requires { from ≤ length words.now }
    ensures { (result ≡ sought (number_in words.now) wanted from (length words.now - from)) × (result ≤ length words.now) }
{
    for place in from..words.len() {
        if wanted <= lower(words[place]) + 1048576 {
            return place;
        }
    }
    words.len()
}
