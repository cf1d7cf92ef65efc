// A shift of one edge.
#![tactic(auto)]

ghost use Rattle.std.specs.Prelude.{◌≡◌, ◌++◌, ◌<◌, ◌≤◌, true, false, pos, ◌+ℤ◌, length, set, drop, replicate, MatchOption};
ghost use Rattle.mathematics.specs.Calls.{Answered};
ghost use Rattle.complex.specs.Complex.{complex_of};
ghost use Rattle.gauss_law.specs.Gauss.{within};
ghost use Rattle.answers.specs.Refusal.{place_answer, FindingTold};
ghost use Rattle.shifts.specs.Shift.{shift_call, ShiftUnlisted};

use answers::finding::Unplaced;
use answers::refusal::Refusal;
use complex::SimplicialComplex;
use enumeration::basis::Basis;
use hilbert::index::{list_and_seek, why_unlisted};
use numbers::sizes::MOST_EDGES;
use walker::blocks::within;

// The sum of two values, where it is within -lambda to lambda.
fn sum_within(x: i32, delta: i32, lambda: usize) -> Option<i32>
    requires { lambda ≤ 1000 }
    ensures { MatchOption result (within lambda (x +ℤ delta) ≡ false) (λ sum. (sum ≡ x +ℤ delta) × (within lambda sum ≡ true)) }
{
    match x.checked_add(delta) {
        Some(sum) if within(sum, lambda) => Some(sum),
        _ => None,
    }
}

// A configuration with another value on one edge, and zeros after it.
fn shifted_row(configuration: &[i32], edge: usize, value: i32) -> [i32; MOST_EDGES]
    requires { (edge < length configuration.now) × (length configuration.now ≤ 63) }
    ensures { result ≡ set configuration.now edge value ++ drop (length configuration.now) (replicate 63 (pos 0)) }
{
    let mut row = [0i32; MOST_EDGES];
    row[..configuration.len()].copy_from_slice(configuration);
    row[edge] = value;
    row
}

// The place of a configuration with a delta added on one edge. The basis goes to the beginning of the first list, the shifted
// configuration to the beginning of the second. All is judged first. The lists are the caller's, and stay parameters of their own.
pub fn apply_shift(
    c: SimplicialComplex,
    lambda: usize,
    configuration: &[i32],
    edge: usize,
    delta: i32,
    states: &mut [i32],
    res: &mut [i32],
) -> Result<usize, Unplaced>
    ensures answered { Answered (shift_call (complex_of c) lambda configuration.now edge delta states.old res.old) (place_answer result) (states.new, res.new) }
    ensures finding { FindingTold result (ShiftUnlisted (complex_of c) lambda configuration.now edge delta) }
{
    let basis = Basis::prepare(c, lambda)?;
    let m = c.n_edges;
    if configuration.len() != m {
        return Err(Unplaced::Refused(Refusal::WrongListLength));
    }
    if m <= edge {
        return Err(Unplaced::Refused(Refusal::OutOfRange));
    }
    if basis.is_too_short(states.len()) | (res.len() < m) {
        return Err(Unplaced::Refused(Refusal::NoRoom));
    }
    let Some(value) = sum_within(configuration[edge], delta, lambda) else {
        return Err(Unplaced::Refused(Refusal::OutOfBand));
    };
    let shifted = shifted_row(configuration, edge, value);
    if let Some(finding) = why_unlisted(c, lambda, &shifted[..m]) {
        return Err(Unplaced::NotInBasis(finding));
    }
    // Out of the local row: the compiler sees that it overlaps no list of the caller.
    res[..m].copy_from_slice(&shifted[..m]);
    Ok(list_and_seek(&basis, &shifted[..m], states))
}
