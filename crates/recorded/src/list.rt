// Lists read out of bytes, and lists held against them.
ghost use Rattle.std.specs.Prelude.{◌≡◌, ◌<◌};
ghost use Rattle.recorded.specs.Bytes.{numbers_in, ReadInto, is_whole, holds};

use crate::entry::Entry;

// The numbers that the bytes hold go to the front of a lent list, as many as find room. How many they are is told.
pub fn read<T: Entry>(bytes: &[u8], out: &mut [T]) -> usize
    ensures { ReadInto (numbers_in T.WIDTH T.taken bytes.now) out.old out.new result }
{
    let width = T::WIDTH;
    let n = out.len().min(bytes.len() / width);
    for (i, entry) in out[..n].iter_mut().enumerate() {
        *entry = T::at(bytes, width * i);
    }
    n
}

// Whether so many bytes are whole numbers of a width, at most as many as a list has entries.
#[tactic(auto, unfolding(crate::specs::Bytes::is_whole))]
fn is_whole(width: usize, bytes: usize, entries: usize) -> bool
    requires { 0 < width }
    ensures { result ≡ is_whole width bytes entries }
{
    (bytes % width == 0) & (bytes / width <= entries)
}

// Whether a list begins with the numbers that the bytes hold, and the bytes hold nothing else.
pub fn same<T: Entry>(list: &[T], bytes: &[u8]) -> bool
    ensures { result ≡ holds T.WIDTH T.is T.blank list.now bytes.now }
{
    let width = T::WIDTH;
    if !is_whole(width, bytes.len(), list.len()) {
        return false;
    }
    let n = bytes.len() / width;
    let mut so_far = true;
    for (i, entry) in list[..n].iter().enumerate() {
        so_far = so_far & entry.is_at(bytes, width * i);
    }
    so_far
}
