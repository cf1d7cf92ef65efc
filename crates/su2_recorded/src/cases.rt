// The calls of the two-valued mode in a case, held against its answers.
ghost use Rattle.std.specs.Prelude.{◌≡◌};
ghost use Rattle.recorded_fields.specs.Layout.{case_at};
ghost use Rattle.su2_recorded.specs.Cases.{z2_agreed};

use crate::{
    build_csr_su2_same, build_su2_hamiltonian_same, su2_basis_same, su2_count_entries_same,
    su2_count_states_same, su2_hamiltonian_matvec_same, su2_wilson_loop_same,
    su2_wilson_passes_same,
};
use recorded_fields::case::Case;
use recorded_fields::inputs::ROOM_8;

#[tactic(auto, unfolding(crate::specs::Cases::z2_agreed, recorded_fields::specs::Choosing::chosen))]
pub fn z2_same(case: Case) -> bool
    ensures { result ≡ z2_agreed (case_at case.entry.list.now case.entry.at) }
{
    let mut weight_room = [0.0; ROOM_8];
    let mut vector_room = [0.0; ROOM_8];
    let weights = case.entries(8, &mut weight_room);
    let vector = case.entries(9, &mut vector_room);
    let sheet = case.field(0);
    let told = case.told();
    let masks = case.field(11);
    let result = case.field(14);
    let p = case.coupling();
    let given = case.given();
    // Kinds and fields go by the numbers that oracle/README.md gives them; the specs use these too.
    match case.kind() {
        18 => su2_basis_same(sheet, told, masks),
        19 => su2_count_states_same(sheet, told),
        20 => build_su2_hamiltonian_same(sheet, p, given, weights, told, masks, result),
        21 => {
            let starts = case.field(12);
            let columns = case.field(13);
            build_csr_su2_same(
                sheet, p, given, weights, told, masks, starts, columns, result,
            )
        }
        22 => su2_count_entries_same(sheet, told),
        23 => su2_hamiltonian_matvec_same(sheet, p, given, weights, vector, told, masks, result),
        24 => su2_wilson_loop_same(sheet, vector, case.field(4), told, masks, result),
        26 => su2_wilson_passes_same(sheet, vector, case.field(4), told, masks, result),
        _ => false,
    }
}
