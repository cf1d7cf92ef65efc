// A case of the list of answers: where its fields stand in it; oracle/README.md has the format.
ghost use Rattle.std.specs.Prelude.{◌≡◌, ◌+◌, ◌<◌, ◌≤◌, ◌^◌, length};
ghost use Rattle.sheet.specs.Sheet.{word};
ghost use Rattle.recorded_fields.specs.Layout.{size, place, case_at, Whole};

use recorded::number::byte_at;

// A case has this many fields.
pub const FIELDS: usize = 15;

// No field has more bytes.
const MOST_BYTES: usize = 8192;

// The case that begins at a place of the list of answers and ends within it.
#[derive(Clone, Copy)]
pub struct Case<'a> {
    pub list: &'a [u8],
    pub at: usize,
    pub ghost whole: { Whole list.now at },
}

// The number of two bytes from a place on.
#[tactic(auto, using(crate::proofs::Fields::two_bytes))]
fn word_at(list: &[u8], at: usize) -> usize
    requires { at + 1 < 2 ^ 64 }
    ensures { (result ≡ word list.now at) × (result < 65536) }
{
    usize::from(u16::from_le_bytes([byte_at(list, at), byte_at(list, at + 1)]))
}

// The number of bytes of a field, by the two bytes at a place.
#[tactic(auto, unfolding(crate::specs::Layout::size))]
fn size_at(list: &[u8], at: usize) -> usize
    requires { at + 1 < 2 ^ 64 }
    ensures { (result ≡ size list.now at) × (result ≤ 8192) }
{
    word_at(list, at).min(MOST_BYTES)
}

// Where a field of the case at a place begins: behind the one before it, so that the loop counts them.
#[tactic(auto, using(crate::proofs::Fields::place_first, crate::proofs::Fields::place_next))]
pub fn place(list: &[u8], at: usize, number: usize) -> usize
    requires { (at ≤ length list.now) × (number ≤ 15) }
    ensures { result ≡ place list.now at number }
{
    let mut begin = at + 1;
    for _ in 0..number {
        begin = begin + 2 + size_at(list, begin);
    }
    begin
}

impl<'a> Case<'a> {
    // The number of its kind.
    #[tactic(auto, unfolding(crate::specs::Layout::case_at))]
    pub fn kind(self) -> u8
        ensures { result ≡ (case_at self.entry.list.now self.entry.at).kind }
    {
        byte_at(self.list, self.at)
    }

    // The bytes of a field.
    #[tactic(auto, using(crate::proofs::Fields::case_inside, crate::proofs::Fields::field_inside, crate::proofs::Fields::field_room), unfolding(crate::specs::Layout::field, crate::specs::Layout::case_at))]
    pub fn field(self, number: usize) -> &'a [u8]
        requires { number < 15 }
        ensures { (result.now ≡ (case_at self.entry.list.now self.entry.at).field number) × (length result.now ≤ 8192) }
    {
        let begin = place(self.list, self.at, number);
        let bytes = size_at(self.list, begin);
        &self.list[begin + 2..][..bytes]
    }
}
