// The port's answers in a case, held against those of the list.
ghost use Rattle.std.specs.Prelude.{◌≡◌};
ghost use Rattle.recorded_fields.specs.Layout.{case_at};
ghost use Rattle.replay.specs.Agreement.{agreed};

use complex_recorded::complex_cases::complexes_same;
use complex_recorded::row_cases::rows_same;
use recorded_fields::case::Case;
use su2_recorded::cases::z2_same;
use u1_recorded::matrix_cases::matrices_same;
use u1_recorded::state_cases::states_same;

// A kind is a byte of the list, judged by `stands`, and goes by the number that oracle/README.md gives it; the specs use these too. Here only
// the ends of ranges stand, and 25. With an enum all 26 names would stand here, and once more in the crates of their calls: no plainer.
#[tactic(auto, unfolding(crate::specs::Agreement::agreed))]
pub fn case_same(case: Case) -> bool
    ensures { result ≡ agreed (case_at case.entry.list.now case.entry.at) }
{
    match case.kind() {
        0..=5 => complexes_same(case),
        6..=11 => states_same(case),
        12..=17 => matrices_same(case),
        25 => rows_same(case),
        _ => z2_same(case),
    }
}
