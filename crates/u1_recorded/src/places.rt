// Places of configurations and of shifted states.
ghost use Rattle.std.specs.Prelude.{◌≡◌};
ghost use Rattle.u1_recorded.specs.Places.{index_agrees, shift_agrees, triangle_agrees};

use crate::room::STATE_ENTRIES;
use numbers::sizes::MOST_EDGES;
use recorded::list::same;
use u1_exports::{export_apply_shift, export_apply_triangle_shift, export_config_to_index};

#[tactic(auto, using(recorded::proofs::Agreeing::agrees_by), unfolding(crate::specs::Places::index_agrees))]
pub fn config_to_index_same(sheet: &[u8], configuration: &[i32], told: i64, states: &[u8]) -> bool
    ensures { result ≡ index_agrees sheet.now configuration.now told states.now }
{
    let mut made_states = [0i32; STATE_ENTRIES];
    let answer = export_config_to_index(sheet, configuration, &mut made_states);
    (answer == told) & same(&made_states, states)
}

pub fn apply_shift_same(
    sheet: &[u8],
    configuration: &[i32],
    edge: u64,
    delta: i32,
    told: i64,
    states: &[u8],
    shifted: &[u8],
) -> bool
    ensures { result ≡ shift_agrees sheet.now configuration.now edge delta told states.now shifted.now }
{
    let mut made_states = [0i32; STATE_ENTRIES];
    let mut made_shifted = [0i32; MOST_EDGES];
    let answer = export_apply_shift(
        sheet,
        configuration,
        edge,
        delta,
        &mut made_states,
        &mut made_shifted,
    );
    (answer == told) & (same(&made_states, states) & same(&made_shifted, shifted))
}

#[tactic(auto, using(recorded::proofs::Agreeing::agrees_by), unfolding(crate::specs::Places::triangle_agrees))]
pub fn apply_triangle_shift_same(
    sheet: &[u8],
    triangle: u64,
    state: u64,
    told: i64,
    states: &[u8],
) -> bool
    ensures { result ≡ triangle_agrees sheet.now triangle state told states.now }
{
    let mut made_states = [0i32; STATE_ENTRIES];
    let answer = export_apply_triangle_shift(sheet, triangle, state, &mut made_states);
    (answer == told) & same(&made_states, states)
}
