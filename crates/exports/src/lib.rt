// What the exported functions of every mode have in common: a sheet is opened, an answer becomes one signed number, and what was found goes to
// numbers that are lent for it.
#![tactic(auto)]

ghost use Rattle.std.specs.Prelude.{◌≡◌, ◌<◌, ◌^◌, pos, neg_ℤ, Float, IfOk};
ghost use Rattle.mathematics.specs.Calls.{Answered, none_lent};
ghost use Rattle.answers.specs.Refusal.{refusal_number, answer_of, place_answer};
ghost use Rattle.matrices.specs.declared.coupling.KSParams.{KSParams};
ghost use Rattle.matrices.specs.Coupling.{coupling_call};
ghost use Rattle.exports.specs.Exports.{signed, zero_of, value_or, none_of, found_or, stored, three_floats, Exported};
ghost use Rattle.exports.specs.Findings.{law_numbers, finding_numbers, FindingStored};

use answers::finding::{Finding, Unlawful, Unplaced};
use answers::refusal::Refusal;
use matrices::coupling::KSParams;

// A usize as an i64, which `i64::from` does not take.
#[tactic(auto, using(crate::proofs::Signs::plain))]
pub fn value(number: usize) -> i64
    requires { number < 2 ^ 31 }
    ensures { result ≡ pos number }
{
    number as i64
}

// One signed number for a value or a refusal.
#[tactic(auto, unfolding(crate::specs::Exports::signed))]
pub fn signed_result(answer: Result<usize, Refusal>) -> i64
    requires { IfOk answer (λ n. n < 2 ^ 31) }
    ensures { result ≡ signed (answer_of answer) }
{
    match answer {
        Ok(number) => value(number),
        Err(refusal) => signed_refusal(refusal),
    }
}

// The number of a refusal, turned.
pub fn refused(number: u8) -> i64
    ensures { result ≡ neg_ℤ (pos number) }
{
    -i64::from(number)
}

pub fn signed_refusal(refusal: Refusal) -> i64
    ensures { result ≡ neg_ℤ (pos (refusal_number refusal)) }
{
    refused(refusal.number())
}

// 1 where the law holds, 0 where a vertex breaks it.
#[tactic(auto, unfolding(crate::specs::Exports::signed, crate::specs::Exports::none_of))]
pub fn signed_unlawful(answer: Result<Option<Unlawful>, Refusal>) -> i64
    ensures { result ≡ signed (none_of (answer_of answer)) }
{
    match answer {
        Ok(None) => 1,
        Ok(Some(_)) => 0,
        Err(refusal) => signed_refusal(refusal),
    }
}

// The same, and the vertex and its excess go to the numbers that are lent for them.
#[tactic(auto, unfolding(crate::specs::Exports::found_or))]
pub fn store_unlawful(
    answer: Result<Option<Unlawful>, Refusal>,
    vertex: &mut u64,
    excess: &mut i64,
) -> i64
    ensures { (result ≡ signed (none_of (answer_of answer))) × ((vertex.new, excess.new) ≡ found_or law_numbers (answer_of answer) (vertex.old, excess.old)) }
{
    if let Ok(Some(unlawful)) = answer {
        *vertex = unlawful.vertex as u64;
        *excess = unlawful.excess;
    }
    signed_unlawful(answer)
}

// A finding goes to the three numbers that are lent for it.
fn store_finding(finding: Finding, vertex: &mut u64, excess: &mut i64, edge: &mut u64)
    ensures { (vertex.new, excess.new, edge.new) ≡ finding_numbers finding (vertex.old, excess.old, edge.old) }
{
    match finding {
        Finding::BreaksLaw(unlawful) => {
            *vertex = unlawful.vertex as u64;
            *excess = unlawful.excess;
        }
        Finding::OutsideBand(outside) => {
            *excess = 0;
            *edge = outside as u64;
        }
    }
}

// One signed number for a place, or for the refusal of a call that looks for one.
#[tactic(auto, unfolding(crate::specs::Exports::signed))]
pub fn signed_place(answer: Result<usize, Unplaced>) -> i64
    requires { IfOk answer (λ n. n < 2 ^ 31) }
    ensures { result ≡ signed (place_answer answer) }
{
    match answer {
        Ok(place) => value(place),
        Err(unplaced) => refused(unplaced.number()),
    }
}

// The same, and the finding that a refusal carries goes to the numbers that are lent for it.
pub fn store_place(
    answer: Result<usize, Unplaced>,
    vertex: &mut u64,
    excess: &mut i64,
    edge: &mut u64,
) -> i64
    requires { IfOk answer (λ n. n < 2 ^ 31) }
    ensures number { result ≡ signed (place_answer answer) }
    ensures stored { FindingStored answer (vertex.old, excess.old, edge.old) (vertex.new, excess.new, edge.new) }
{
    if let Err(Unplaced::NotInBasis(finding)) = answer {
        store_finding(finding, vertex, excess, edge);
    }
    signed_place(answer)
}

// The expectation of an answer goes to the float that is lent for it: 0.
#[tactic(auto, unfolding(crate::specs::Exports::signed, crate::specs::Exports::zero_of, crate::specs::Exports::value_or))]
pub fn store_expectation(answer: Result<f64, Refusal>, expectation: &mut f64) -> i64
    ensures { (result ≡ signed (zero_of (answer_of answer))) × (expectation.new ≡ value_or (answer_of answer) expectation.old) }
{
    match answer {
        Ok(x) => {
            *expectation = x;
            0
        }
        Err(why) => signed_refusal(why),
    }
}

// The same of a coupling, which goes to three floats.
pub fn store_params(params: Result<KSParams, Refusal>, floats: &mut [f64; 3]) -> i64
    ensures { (g : Float) (own : KSParams) → Answered (coupling_call g own) (answer_of params) none_lent → Exported (stored (coupling_call g own) three_floats floats.old) result floats.new }
{
    match params {
        Ok(p) => {
            *floats = [p.g_squared, p.electric, p.magnetic];
            0
        }
        Err(reason) => signed_refusal(reason),
    }
}

// A coupling comes as its three floats.
pub fn coupling(g_squared: f64, electric: f64, magnetic: f64) -> KSParams
    ensures { result ≡ record { g_squared = g_squared; electric = electric; magnetic = magnetic } }
{
    KSParams {
        g_squared,
        electric,
        magnetic,
    }
}
