// The product of a sheet's Hamiltonian with a vector, and the expectations in a state.
ghost use Rattle.std.specs.Prelude.{◌≡◌};
ghost use Rattle.u1_recorded.specs.Products.{product_agrees, electric_agrees, wilson_agrees};

use crate::room::{RESULT, STATE_ENTRIES};
use matrices::coupling::KSParams;
use recorded::list::same;
use u1_exports::{export_electric_field_sq, export_hamiltonian_matvec, export_wilson_loop};

#[tactic(auto, using(recorded::proofs::Agreeing::agrees_by), unfolding(crate::specs::Products::product_agrees))]
pub fn hamiltonian_matvec_same(
    sheet: &[u8],
    coupling: KSParams,
    given: bool,
    weights: &[f64],
    vector: &[f64],
    told: i64,
    states: &[u8],
    values: &[u8],
) -> bool
    ensures { result ≡ product_agrees sheet.now coupling given weights.now vector.now told states.now values.now }
{
    let mut made_states = [0i32; STATE_ENTRIES];
    let mut made_values = [0.0f64; RESULT];
    let answer = export_hamiltonian_matvec(
        sheet,
        coupling.g_squared,
        coupling.electric,
        coupling.magnetic,
        given,
        weights,
        vector,
        &mut made_states,
        &mut made_values,
    );
    (answer == told) & (same(&made_states, states) & same(&made_values, values))
}

#[tactic(auto, using(recorded::proofs::Agreeing::agrees_by), unfolding(crate::specs::Products::electric_agrees))]
pub fn electric_field_sq_same(
    sheet: &[u8],
    amplitudes: &[f64],
    told: i64,
    states: &[u8],
    values: &[u8],
) -> bool
    ensures { result ≡ electric_agrees sheet.now amplitudes.now told states.now values.now }
{
    let mut made_states = [0i32; STATE_ENTRIES];
    let mut made_values = [0.0f64; RESULT];
    let answer = export_electric_field_sq(sheet, amplitudes, &mut made_states, &mut made_values);
    (answer == told) & (same(&made_states, states) & same(&made_values, values))
}

#[tactic(auto, using(recorded::proofs::Agreeing::agrees_by), unfolding(crate::specs::Products::wilson_agrees))]
pub fn wilson_loop_same(
    sheet: &[u8],
    amplitudes: &[f64],
    edges: &[u8],
    directions: &[i8],
    told: i64,
    states: &[u8],
    values: &[u8],
) -> bool
    ensures { result ≡ wilson_agrees sheet.now amplitudes.now edges.now directions.now told states.now values.now }
{
    let mut made_states = [0i32; STATE_ENTRIES];
    let mut expectation = 0.0;
    let answer = export_wilson_loop(
        sheet,
        amplitudes,
        edges,
        directions,
        &mut made_states,
        &mut expectation,
    );
    (answer == told) & (same(&made_states, states) & same(&[expectation], values))
}
