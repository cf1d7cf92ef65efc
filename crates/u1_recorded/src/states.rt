// The law and the states of a sheet.
ghost use Rattle.std.specs.Prelude.{◌≡◌};
ghost use Rattle.u1_recorded.specs.States.{law_agrees, enumerated_agrees, counted_agrees};

use crate::room::STATE_ENTRIES;
use recorded::list::same;
use u1_exports::{export_check_gauss_law, export_count_states, export_enumerate_gauge_invariant};

#[tactic(auto, using(recorded::proofs::Agreeing::told_by), unfolding(crate::specs::States::law_agrees))]
pub fn check_gauss_law_same(sheet: &[u8], configuration: &[i32], told: i64) -> bool
    ensures { result ≡ law_agrees sheet.now configuration.now told }
{
    export_check_gauss_law(sheet, configuration) == told
}

#[tactic(auto, using(recorded::proofs::Agreeing::agrees_by), unfolding(crate::specs::States::enumerated_agrees))]
pub fn enumerate_gauge_invariant_same(sheet: &[u8], told: i64, states: &[u8]) -> bool
    ensures { result ≡ enumerated_agrees sheet.now told states.now }
{
    let mut made_states = [0i32; STATE_ENTRIES];
    let answer = export_enumerate_gauge_invariant(sheet, &mut made_states);
    (answer == told) & same(&made_states, states)
}

#[tactic(auto, using(recorded::proofs::Agreeing::told_by), unfolding(crate::specs::States::counted_agrees))]
pub fn count_states_same(sheet: &[u8], told: i64) -> bool
    ensures { result ≡ counted_agrees sheet.now told }
{
    export_count_states(sheet) == told
}
