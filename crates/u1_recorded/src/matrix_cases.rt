// The calls on matrices, products and expectations of U(1) in a case, held against its answers.
ghost use Rattle.std.specs.Prelude.{◌≡◌};
ghost use Rattle.recorded_fields.specs.Layout.{case_at};
ghost use Rattle.u1_recorded.specs.Cases.{matrices_agreed};

use crate::matrix::{build_csr_same, build_hamiltonian_same, count_entries_same};
use crate::products::{electric_field_sq_same, hamiltonian_matvec_same, wilson_loop_same};
use recorded_fields::case::Case;
use recorded_fields::inputs::{ROOM_1, ROOM_8};

#[tactic(auto, unfolding(crate::specs::Cases::matrices_agreed, recorded_fields::specs::Choosing::chosen))]
pub fn matrices_same(case: Case) -> bool
    ensures { result ≡ matrices_agreed (case_at case.entry.list.now case.entry.at) }
{
    let mut weight_room = [0.0; ROOM_8];
    let mut vector_room = [0.0; ROOM_8];
    let mut direction_room = [0i8; ROOM_1];
    let weights = case.entries(8, &mut weight_room);
    let vector = case.entries(9, &mut vector_room);
    let directions = case.entries(5, &mut direction_room);
    let sheet = case.field(0);
    let told = case.told();
    let states = case.field(11);
    let result = case.field(14);
    let p = case.coupling();
    let given = case.given();
    // Kinds and fields go by the numbers that oracle/README.md gives them; the specs use these too.
    match case.kind() {
        12 => build_hamiltonian_same(sheet, p, given, weights, told, states, result),
        13 => {
            let starts = case.field(12);
            let columns = case.field(13);
            build_csr_same(
                sheet, p, given, weights, told, states, starts, columns, result,
            )
        }
        14 => count_entries_same(sheet, told),
        15 => hamiltonian_matvec_same(sheet, p, given, weights, vector, told, states, result),
        16 => electric_field_sq_same(sheet, vector, told, states, result),
        17 => {
            let path = case.field(4);
            wilson_loop_same(sheet, vector, path, directions, told, states, result)
        }
        _ => false,
    }
}
