// The place of a configuration in the basis, or why it has none.
ghost use Rattle.std.specs.Prelude.{◌≡◌, ℕ, ◌≤◌, length};
ghost use Rattle.complex.specs.Complex.{Complex, complex_of};
ghost use Rattle.complex.specs.Judge.{refusal};
ghost use Rattle.hilbert.specs.Basis.{lowest_outside, why_unlisted, Unlisted};
ghost use Rattle.hilbert.specs.Search.{Sought, FoundIn};
ghost use Rattle.hilbert.specs.Index.{index_call};
ghost use Rattle.enumeration.specs.Basis.{BasisOf};
ghost use Rattle.mathematics.specs.Calls.{Answered};
ghost use Rattle.answers.specs.Refusal.{place_answer, FindingTold};

use crate::search::find_place;
use answers::finding::{Finding, Unplaced};
use answers::refusal::Refusal;
use complex::SimplicialComplex;
use enumeration::basis::Basis;
use law_check::find_unlawful;
use walker::blocks::within;

// The lowest edge whose value is not within -lambda to lambda.
fn find_outside(configuration: &[i32], lambda: usize) -> Option<usize>
    requires { lambda ≤ 1000 }
    ensures { result ≡ lowest_outside lambda configuration.now }
{
    for (edge, value) in configuration.iter().enumerate() {
        if !within(*value, lambda) {
            return Some(edge);
        }
    }
    None
}

// Why a configuration of an accepted record is not in its basis, where it is not: the law is judged first, then the band.
pub fn why_unlisted(c: SimplicialComplex, lambda: usize, configuration: &[i32]) -> Option<Finding>
    requires { (refusal (complex_of c) ≡ 0) × (lambda ≤ 1000) × (length configuration.now ≡ c.n_edges) }
    ensures { result ≡ why_unlisted (complex_of c) lambda configuration.now }
{
    if let Some(unlawful) = find_unlawful(c, configuration) {
        return Some(Finding::BreaksLaw(unlawful));
    }
    let edge = find_outside(configuration, lambda)?;
    Some(Finding::OutsideBand(edge))
}

// The basis goes to the beginning of a list, and a configuration that is in it is found there.
pub fn list_and_seek(basis: &Basis, configuration: &[i32], states: &mut [i32]) -> usize
    requires { Sought basis.now.walker basis.now.lambda basis.now.blocks configuration.now (length states.old) }
    ensures { (c : Complex) (L : ℕ) → BasisOf c L basis.now → FoundIn c L configuration.now states.old states.new result }
{
    let n = basis.write(states);
    find_place(
        states,
        n,
        configuration,
        &basis.walker.free,
        basis.walker.n_free,
    )
}

// The place of a configuration in the basis of a record, which goes to the beginning of the list. All is judged first.
pub fn config_to_index(
    c: SimplicialComplex,
    lambda: usize,
    configuration: &[i32],
    states: &mut [i32],
) -> Result<usize, Unplaced>
    ensures answered { Answered (index_call (complex_of c) lambda configuration.now states.old) (place_answer result) states.new }
    ensures finding { FindingTold result (Unlisted (complex_of c) lambda configuration.now) }
{
    let basis = Basis::prepare(c, lambda)?;
    if configuration.len() != c.n_edges {
        return Err(Unplaced::Refused(Refusal::WrongListLength));
    }
    if basis.is_too_short(states.len()) {
        return Err(Unplaced::Refused(Refusal::NoRoom));
    }
    if let Some(finding) = why_unlisted(c, lambda, configuration) {
        return Err(Unplaced::NotInBasis(finding));
    }
    Ok(list_and_seek(&basis, configuration, states))
}
