// The Hamiltonian of a sheet.
ghost use Rattle.std.specs.Prelude.{◌≡◌};
ghost use Rattle.u1_recorded.specs.Matrix.{dense_agrees, csr_agrees, entries_agrees};

use crate::room::{MATRIX_ENTRIES, STARTS, STATE_ENTRIES};
use matrices::coupling::KSParams;
use recorded::list::same;
use u1_exports::{export_build_csr, export_build_hamiltonian, export_count_entries};

#[tactic(auto, using(recorded::proofs::Agreeing::agrees_by), unfolding(crate::specs::Matrix::dense_agrees))]
pub fn build_hamiltonian_same(
    sheet: &[u8],
    coupling: KSParams,
    given: bool,
    weights: &[f64],
    told: i64,
    states: &[u8],
    values: &[u8],
) -> bool
    ensures { result ≡ dense_agrees sheet.now coupling given weights.now told states.now values.now }
{
    let mut made_states = [0i32; STATE_ENTRIES];
    let mut made_values = [0.0f64; MATRIX_ENTRIES];
    let answer = export_build_hamiltonian(
        sheet,
        coupling.g_squared,
        coupling.electric,
        coupling.magnetic,
        given,
        weights,
        &mut made_states,
        &mut made_values,
    );
    (answer == told) & (same(&made_states, states) & same(&made_values, values))
}

#[tactic(auto, using(recorded::proofs::Agreeing::agrees_by), unfolding(crate::specs::Matrix::csr_agrees))]
pub fn build_csr_same(
    sheet: &[u8],
    coupling: KSParams,
    given: bool,
    weights: &[f64],
    told: i64,
    states: &[u8],
    starts: &[u8],
    columns: &[u8],
    values: &[u8],
) -> bool
    ensures { result ≡ csr_agrees sheet.now coupling given weights.now told states.now starts.now columns.now values.now }
{
    let mut made_states = [0i32; STATE_ENTRIES];
    let mut made_starts = [0u32; STARTS];
    let mut made_columns = [0u32; MATRIX_ENTRIES];
    let mut made_values = [0.0f64; MATRIX_ENTRIES];
    let answer = export_build_csr(
        sheet,
        coupling.g_squared,
        coupling.electric,
        coupling.magnetic,
        given,
        weights,
        &mut made_states,
        &mut made_starts,
        &mut made_columns,
        &mut made_values,
    );
    (answer == told)
        & (same(&made_states, states)
            & (same(&made_starts, starts)
                & (same(&made_columns, columns) & same(&made_values, values))))
}

#[tactic(auto, using(recorded::proofs::Agreeing::told_by), unfolding(crate::specs::Matrix::entries_agrees))]
pub fn count_entries_same(sheet: &[u8], told: i64) -> bool
    ensures { result ≡ entries_agrees sheet.now told }
{
    export_count_entries(sheet) == told
}
