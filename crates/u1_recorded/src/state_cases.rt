// The calls on the states of U(1) and their places in a case, held against its answers.
ghost use Rattle.std.specs.Prelude.{◌≡◌};
ghost use Rattle.recorded_fields.specs.Layout.{case_at};
ghost use Rattle.u1_recorded.specs.Cases.{states_agreed};

use crate::places::{apply_shift_same, apply_triangle_shift_same, config_to_index_same};
use crate::states::{check_gauss_law_same, count_states_same, enumerate_gauge_invariant_same};
use recorded_fields::case::Case;
use recorded_fields::inputs::ROOM_4;

#[tactic(auto, unfolding(crate::specs::Cases::states_agreed, recorded_fields::specs::Choosing::chosen))]
pub fn states_same(case: Case) -> bool
    ensures { result ≡ states_agreed (case_at case.entry.list.now case.entry.at) }
{
    let mut room = [0i32; ROOM_4];
    let configuration = case.entries(2, &mut room);
    let sheet = case.field(0);
    let told = case.told();
    let states = case.field(11);
    let n = case.number(0);
    // Kinds and fields go by the numbers that oracle/README.md gives them; the specs use these too.
    match case.kind() {
        6 => check_gauss_law_same(sheet, configuration, told),
        7 => enumerate_gauge_invariant_same(sheet, told, states),
        8 => count_states_same(sheet, told),
        9 => config_to_index_same(sheet, configuration, told, states),
        10 => {
            let shift = case.delta();
            let shifted = case.field(12);
            apply_shift_same(sheet, configuration, n, shift, told, states, shifted)
        }
        11 => apply_triangle_shift_same(sheet, n, case.number(1), told, states),
        _ => false,
    }
}
