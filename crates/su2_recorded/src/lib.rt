// The calls of the two-valued mode, held against what was recorded of them: the number that a call tells, and what its lists then begin with.
// Functions differ in the call and in its lists, and take what was recorded of it: weights, and whether they are given, as the call takes them.
// One for several, or for both modes, would take the call as a closure over lent lists, with a contract that is longer than these bodies.
#![tactic(auto)]

pub mod cases;

ghost use Rattle.std.specs.Prelude.{◌≡◌};
ghost use Rattle.su2_recorded.specs.Agreement.{su2_basis_agrees, su2_counted_agrees, su2_dense_agrees, su2_rows_agrees, su2_entries_agrees, su2_product_agrees, su2_loop_agrees, su2_passes_agrees};

use matrices::coupling::KSParams;
use recorded::list::same;
use su2_exports::{
    export_build_csr_su2, export_build_su2_hamiltonian, export_su2_basis, export_su2_count_entries,
    export_su2_count_states, export_su2_hamiltonian_matvec, export_su2_wilson_loop,
    export_su2_wilson_passes,
};

#[tactic(auto, using(recorded::proofs::Agreeing::agrees_by), unfolding(crate::specs::Agreement::su2_basis_agrees))]
pub fn su2_basis_same(sheet: &[u8], told: i64, masks: &[u8]) -> bool
    ensures { result ≡ su2_basis_agrees sheet.now told masks.now }
{
    let mut states = [0u64; 256];
    let answer = export_su2_basis(sheet, &mut states);
    (answer == told) & same(&states, masks)
}

#[tactic(auto, using(recorded::proofs::Agreeing::told_by), unfolding(crate::specs::Agreement::su2_counted_agrees))]
pub fn su2_count_states_same(sheet: &[u8], told: i64) -> bool
    ensures { result ≡ su2_counted_agrees sheet.now told }
{
    export_su2_count_states(sheet) == told
}

#[tactic(auto, using(recorded::proofs::Agreeing::agrees_by), unfolding(crate::specs::Agreement::su2_dense_agrees))]
pub fn build_su2_hamiltonian_same(
    sheet: &[u8],
    coupling: KSParams,
    given: bool,
    weights: &[f64],
    told: i64,
    masks: &[u8],
    matrix: &[u8],
) -> bool
    ensures { result ≡ su2_dense_agrees sheet.now coupling given weights.now told masks.now matrix.now }
{
    let mut states = [0u64; 256];
    let mut result = [0.0; 1024];
    let answer = export_build_su2_hamiltonian(
        sheet,
        coupling.g_squared,
        coupling.electric,
        coupling.magnetic,
        given,
        weights,
        &mut states,
        &mut result,
    );
    (answer == told) & (same(&states, masks) & same(&result, matrix))
}

#[tactic(auto, using(recorded::proofs::Agreeing::agrees_by), unfolding(crate::specs::Agreement::su2_rows_agrees))]
pub fn build_csr_su2_same(
    sheet: &[u8],
    coupling: KSParams,
    given: bool,
    weights: &[f64],
    told: i64,
    masks: &[u8],
    starts: &[u8],
    columns: &[u8],
    values: &[u8],
) -> bool
    ensures { result ≡ su2_rows_agrees sheet.now coupling given weights.now told masks.now starts.now columns.now values.now }
{
    let mut states = [0u64; 256];
    let mut row_starts = [0u32; 128];
    let mut row_columns = [0u32; 1024];
    let mut row_values = [0.0; 1024];
    let answer = export_build_csr_su2(
        sheet,
        coupling.g_squared,
        coupling.electric,
        coupling.magnetic,
        given,
        weights,
        &mut states,
        &mut row_starts,
        &mut row_columns,
        &mut row_values,
    );
    (answer == told)
        & (same(&states, masks)
            & (same(&row_starts, starts)
                & (same(&row_columns, columns) & same(&row_values, values))))
}

#[tactic(auto, using(recorded::proofs::Agreeing::told_by), unfolding(crate::specs::Agreement::su2_entries_agrees))]
pub fn su2_count_entries_same(sheet: &[u8], told: i64) -> bool
    ensures { result ≡ su2_entries_agrees sheet.now told }
{
    export_su2_count_entries(sheet) == told
}

#[tactic(auto, using(recorded::proofs::Agreeing::agrees_by), unfolding(crate::specs::Agreement::su2_product_agrees))]
pub fn su2_hamiltonian_matvec_same(
    sheet: &[u8],
    coupling: KSParams,
    given: bool,
    weights: &[f64],
    vector: &[f64],
    told: i64,
    masks: &[u8],
    product: &[u8],
) -> bool
    ensures { result ≡ su2_product_agrees sheet.now coupling given weights.now vector.now told masks.now product.now }
{
    let mut states = [0u64; 256];
    let mut result = [0.0; 256];
    let answer = export_su2_hamiltonian_matvec(
        sheet,
        coupling.g_squared,
        coupling.electric,
        coupling.magnetic,
        given,
        weights,
        vector,
        &mut states,
        &mut result,
    );
    (answer == told) & (same(&states, masks) & same(&result, product))
}

#[tactic(auto, using(recorded::proofs::Agreeing::agrees_by), unfolding(crate::specs::Agreement::su2_loop_agrees))]
pub fn su2_wilson_loop_same(
    sheet: &[u8],
    vector: &[f64],
    path: &[u8],
    told: i64,
    masks: &[u8],
    expectation: &[u8],
) -> bool
    ensures { result ≡ su2_loop_agrees sheet.now vector.now path.now told masks.now expectation.now }
{
    let mut states = [0u64; 256];
    let mut value = 0.0;
    let answer = export_su2_wilson_loop(sheet, vector, path, &mut states, &mut value);
    (answer == told) & (same(&states, masks) & same(&[value], expectation))
}

#[tactic(auto, using(recorded::proofs::Agreeing::agrees_by), unfolding(crate::specs::Agreement::su2_passes_agrees))]
pub fn su2_wilson_passes_same(
    sheet: &[u8],
    vector: &[f64],
    path: &[u8],
    told: i64,
    masks: &[u8],
    expectation: &[u8],
) -> bool
    ensures { result ≡ su2_passes_agrees sheet.now vector.now path.now told masks.now expectation.now }
{
    let mut states = [0u64; 256];
    let mut value = 0.0;
    let answer = export_su2_wilson_passes(sheet, vector, path, &mut states, &mut value);
    (answer == told) & (same(&states, masks) & same(&[value], expectation))
}
