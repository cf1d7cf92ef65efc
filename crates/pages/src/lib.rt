// The text that `basis list` prints, a piece at a time into a lent list.
#![tactic(auto)]

pub mod states;

ghost use Rattle.std.specs.Prelude.{◌≡◌, ◌∷◌, [], ◌≤◌, ◌<◌, length, MatchOption};
ghost use Rattle.mathematics.specs.Refusals.{first};
ghost use Rattle.answers.specs.Refusal.{refusal_number};
ghost use Rattle.complex.specs.Complex.{complex_of};
ghost use Rattle.complex.specs.Judge.{refusal};
ghost use Rattle.walker.specs.Tables.{states_of, Fit};
ghost use Rattle.enumeration.specs.Enumeration.{limit_test};
ghost use Rattle.lines.specs.Lines.{state_lines, refused_line};
ghost use Rattle.pages.specs.Text.{told};
ghost use Rattle.pages.specs.Pages.{to_come, PageReady, Told, Begins, Continues};

use answers::refusal::Refusal;
use cursor::Cursor;
use enumeration::{count_of_blocks, too_many};
use lines::{write_first_line, write_refused_line};
use numbers::sizes::MOST_EDGES;
use runs::count_states;
use sheet::{Sheet, read_sheet};
use states::write_lines;
use walker::tables::{Walker, prepare};

// Where the text goes on: at the state of a cursor.
#[derive(Clone, Copy)]
pub struct Page {
    pub lambda: usize,
    pub walker: Walker,
    pub cursor: Cursor,
    pub config: [i32; MOST_EDGES],
}

// The first len bytes of the list are the next of the text, which goes on at a page where more is to come.
#[derive(Clone, Copy)]
pub struct Filled {
    pub len: usize,
    pub next: Option<Page>,
}

// The first piece, and why the sheet is refused where it is.
#[derive(Clone, Copy)]
pub struct Begun {
    pub refusal: Option<Refusal>,
    pub filled: Filled,
}

// A page, where something is to come after it.
fn while_left(page: Page) -> Option<Page>
    ensures { MatchOption result (page.cursor.left ≡ 0) (λ next. (next ≡ page) × (0 < page.cursor.left)) }
{
    (0 < page.cursor.left).then_some(page)
}

// All states are to come.
fn first_page(w: Walker, lambda: usize, blocks: usize) -> Page
    requires { Fit w lambda blocks }
    ensures { (to_come result ≡ state_lines 0 (states_of w lambda blocks)) × (0 < result.cursor.left → PageReady result) }
{
    let mut config = w.first;
    let cursor = Cursor::first(&mut config[..w.n_edges], &w, lambda, blocks, 0);
    Page {
        lambda,
        walker: w,
        cursor,
        config,
    }
}

fn fill_refused(out: &mut [u8], refusal: Refusal) -> Begun
    requires { 400 ≤ length out.old }
    ensures { Told (refusal_number refusal) (refused_line (refusal_number refusal)) out.new result }
{
    let len = write_refused_line(out, 0, usize::from(refusal.number()));
    Begun {
        refusal: Some(refusal),
        filled: Filled { len, next: None },
    }
}

// The first line of a sheet that was read, or 10. Reading judged the sheet, so its basis is not prepared by `Basis::prepare`, which judges again.
fn fill_first(out: &mut [u8], s: Sheet) -> Begun
    requires { (400 ≤ length out.old) × (refusal (complex_of s.complex) ≡ 0) × (s.lambda ≤ 1000) }
    ensures { Told (first (limit_test (complex_of s.complex) s.lambda ∷ [])) (told (first (limit_test (complex_of s.complex) s.lambda ∷ [])) (complex_of s.complex) s.lambda) out.new result }
{
    let c = s.complex;
    let lambda = s.lambda;
    let w = prepare(c, lambda);
    if too_many(w.n_free, lambda) {
        return fill_refused(out, Refusal::ManyCandidates);
    }
    let blocks = count_of_blocks(w.n_free, lambda);
    let dim = count_states(&w, lambda, blocks);
    let len = write_first_line(out, 0, c.n_vertices, c.n_edges, c.n_triangles, lambda, dim);
    let next = while_left(first_page(w, lambda, blocks));
    Begun {
        refusal: None,
        filled: Filled { len, next },
    }
}

// The first piece of the answer to the bytes of a sheet.
pub fn fill_begin(out: &mut [u8], bytes: &[u8]) -> Begun
    requires { 400 ≤ length out.old }
    ensures { Begins bytes.now out.new result }
{
    match read_sheet(bytes) {
        Ok(sheet) => fill_first(out, sheet),
        Err(refusal) => fill_refused(out, refusal),
    }
}

// The next piece: as many lines as there is room for.
pub fn fill_more(out: &mut [u8], page: Page) -> Filled
    requires { (400 ≤ length out.old) × PageReady page }
    ensures { Continues out.new page result }
{
    let mut config = page.config;
    let lines = write_lines(
        out,
        page.cursor,
        &mut config[..page.walker.n_edges],
        &page.walker,
        page.lambda,
    );
    let turned = Page {
        cursor: lines.cursor,
        config,
        ..page
    };
    Filled {
        len: lines.len,
        next: while_left(turned),
    }
}
