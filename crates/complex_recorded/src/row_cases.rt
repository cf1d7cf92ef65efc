// The product of row lists in a case, held against its answer.
ghost use Rattle.std.specs.Prelude.{◌≡◌};
ghost use Rattle.recorded_fields.specs.Layout.{case_at};
ghost use Rattle.complex_recorded.specs.Cases.{rows_agreed};

use crate::matvec_same;
use recorded_fields::case::Case;
use recorded_fields::inputs::{ROOM_4, ROOM_8};

#[tactic(auto, unfolding(crate::specs::Cases::rows_agreed))]
pub fn rows_same(case: Case) -> bool
    ensures { result ≡ rows_agreed (case_at case.entry.list.now case.entry.at) }
{
    let mut starts = [0u32; ROOM_4];
    let mut columns = [0u32; ROOM_4];
    let mut values = [0.0; ROOM_8];
    let mut vector = [0.0; ROOM_8];
    matvec_same(
        case.entries(11, &mut starts),
        case.entries(12, &mut columns),
        case.entries(8, &mut values),
        case.entries(9, &mut vector),
        case.told(),
        case.field(14),
    )
}
