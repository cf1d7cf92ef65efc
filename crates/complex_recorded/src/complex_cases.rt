// The calls on complexes, trees and loops in a case, held against its answers.
ghost use Rattle.std.specs.Prelude.{◌≡◌};
ghost use Rattle.recorded_fields.specs.Layout.{case_at};
ghost use Rattle.complex_recorded.specs.Cases.{complexes_agreed};

use crate::{
    from_pentachorons_same, fundamental_loops_same, spanning_tree_same, su2_fundamental_loops_same,
    tri_edge_indices_same,
};
use recorded_fields::case::Case;
use recorded_fields::inputs::ROOM_8;

#[tactic(auto, unfolding(crate::specs::Cases::complexes_agreed, recorded_fields::specs::Choosing::chosen))]
pub fn complexes_same(case: Case) -> bool
    ensures { result ≡ complexes_agreed (case_at case.entry.list.now case.entry.at) }
{
    let mut room = [0u64; ROOM_8];
    let pentachora = case.entries(6, &mut room);
    let sheet = case.field(0);
    let told = case.told();
    let first = case.field(11);
    let second = case.field(12);
    let third = case.field(13);
    let n = case.number(0);
    // Kinds and fields go by the numbers that oracle/README.md gives them; the specs use these too.
    match case.kind() {
        1 => from_pentachorons_same(n, pentachora, told, first, second, third),
        2 => tri_edge_indices_same(sheet, n, told, first),
        3 => spanning_tree_same(sheet, told, first, second),
        4 => fundamental_loops_same(sheet, told, second, first, third),
        5 => su2_fundamental_loops_same(sheet, told, second, first),
        _ => false,
    }
}
