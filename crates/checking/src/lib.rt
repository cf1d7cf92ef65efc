// What `basis check` prints: whether a configuration is in the basis of a sheet, or what is wrong with it.
#![tactic(auto)]

pub mod value;

ghost use Rattle.std.specs.Prelude.{◌≡◌, ◌≤◌, length, take};
ghost use Rattle.mathematics.specs.Refusals.{first};
ghost use Rattle.answers.specs.Refusal.{refusal_number};
ghost use Rattle.complex.specs.Complex.{complex_of};
ghost use Rattle.complex.specs.Judge.{refusal};
ghost use Rattle.lines.specs.Lines.{refused_line};
ghost use Rattle.checking.specs.Text.{values_tests, finding_line, told, check_refusal, check_text};
ghost use Rattle.checking.specs.Checked.{LineTold};

use answers::finding::{Finding, Unplaced};
use answers::refusal::Refusal;
use hilbert::index::why_unlisted;
use lines::{write_listed_line, write_outside_line, write_refused_line, write_unlawful_line};
use sheet::{Sheet, read_sheet};

// The first len bytes of the list are the text. The number of the refusal is 0 where there is none.
#[derive(Clone, Copy)]
pub struct Checked {
    pub len: usize,
    pub number: u8,
}

// A sheet that is refused, or a wrong number of values.
fn tell_refused(out: &mut [u8], refusal: Refusal) -> Checked
    requires { 400 ≤ length out.old }
    ensures { LineTold (refusal_number refusal) (refused_line (refusal_number refusal)) out.new result }
{
    let number = refusal.number();
    let len = write_refused_line(out, 0, usize::from(number));
    Checked { len, number }
}

// What was found of a configuration, at the front of a list.
fn write_finding(out: &mut [u8], lambda: usize, finding: Finding) -> usize
    requires { 400 ≤ length out.old }
    ensures bytes { take result out.new ≡ finding_line lambda finding }
    ensures fits { result ≤ length out.new }
{
    match finding {
        Finding::BreaksLaw(f) => write_unlawful_line(out, 0, f.vertex, f.excess),
        Finding::OutsideBand(edge) => write_outside_line(out, 0, edge, lambda),
    }
}

// The values on a sheet that was read. Reading judged the sheet.
fn check_values(out: &mut [u8], s: Sheet, values: &[i32]) -> Checked
    requires { (400 ≤ length out.old) × (refusal (complex_of s.complex) ≡ 0) × (s.lambda ≤ 1000) }
    ensures { let n = first (values_tests (complex_of s.complex) s.lambda values.now) in LineTold n (told n (complex_of s.complex) s.lambda values.now) out.new result }
{
    if values.len() != s.complex.n_edges {
        return tell_refused(out, Refusal::WrongListLength);
    }
    match why_unlisted(s.complex, s.lambda, values) {
        Some(finding) => Checked {
            len: write_finding(out, s.lambda, finding),
            number: Unplaced::NotInBasis(finding).number(),
        },
        None => Checked {
            len: write_listed_line(out, 0),
            number: 0,
        },
    }
}

// The answer to the bytes of a sheet and to values for its edges, whose number is judged. A line has fewer than 400 bytes.
pub fn write_check(out: &mut [u8], bytes: &[u8], values: &[i32]) -> Checked
    requires { 400 ≤ length out.old }
    ensures { LineTold (check_refusal bytes.now values.now) (check_text bytes.now values.now) out.new result }
{
    match read_sheet(bytes) {
        Ok(sheet) => check_values(out, sheet, values),
        Err(refusal) => tell_refused(out, refusal),
    }
}
