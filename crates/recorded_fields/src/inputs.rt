// What the fields of a case hold that go into a call.
ghost use Rattle.std.specs.Prelude.{◌≡◌, ◌<◌, ◌≤◌, ◌/◌, length};
ghost use Rattle.recorded.specs.Bytes.{numbers_in};
ghost use Rattle.recorded_fields.specs.Layout.{case_at};
ghost use Rattle.recorded_fields.specs.Inputs.{number_of, delta_of, given_of, coupling_of, told_of};

use crate::case::Case;
use matrices::coupling::KSParams;
use recorded::entry::Entry;
use recorded::list::read;
use recorded::number::{float_at, u32_at, u64_at};

// Room for the numbers of any field, by the bytes of a number: no field has more than 8,192 bytes.
pub const ROOM_8: usize = 1024;

pub const ROOM_4: usize = 2048;

pub const ROOM_1: usize = 8192;

impl Case<'_> {
    // One of the numbers that a call takes.
    pub fn number(self, index: usize) -> u64
        requires { index ≤ 1 }
        ensures { result ≡ number_of (case_at self.entry.list.now self.entry.at) index }
    {
        u64_at(self.field(1), 8 * index)
    }

    // What a shift adds.
    pub fn delta(self) -> i32
        ensures { result ≡ delta_of (case_at self.entry.list.now self.entry.at) }
    {
        u32_at(self.field(3), 0).cast_signed()
    }

    // Whether weights are given.
    #[tactic(auto, unfolding(crate::specs::Inputs::given_of))]
    pub fn given(self) -> bool
        ensures { result ≡ given_of (case_at self.entry.list.now self.entry.at) }
    {
        self.number(0) == 1
    }

    // g² and the two factors.
    #[tactic(auto, unfolding(crate::specs::Inputs::coupling_of))]
    pub fn coupling(self) -> KSParams
        ensures { result ≡ coupling_of (case_at self.entry.list.now self.entry.at) }
    {
        let bytes = self.field(7);
        KSParams {
            g_squared: float_at(bytes, 0),
            electric: float_at(bytes, 8),
            magnetic: float_at(bytes, 16),
        }
    }

    // The number that the call told.
    pub fn told(self) -> i64
        ensures { result ≡ told_of (case_at self.entry.list.now self.entry.at) }
    {
        u64_at(self.field(10), 0).cast_signed()
    }

    // The numbers of a field, read into a list that has room for those of any field.
    #[tactic(auto, using(crate::proofs::Decoding::all_read))]
    pub fn entries<'b, T: Entry>(self, index: usize, room: &'b mut [T]) -> &'b [T]
        requires { (index < 15) × (8192 / T.WIDTH ≤ length room.old) }
        ensures { result.now ≡ numbers_in T.WIDTH T.taken ((case_at self.entry.list.now self.entry.at).field index) }
    {
        let n = read(self.field(index), room);
        &room[..n]
    }
}
