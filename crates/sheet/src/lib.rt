// The sheet file: a complex and its truncation, as bytes.
#![tactic(auto)]

ghost use Rattle.std.specs.Prelude.{◌≡◌, ◌+◌, ◌<◌, ◌≤◌, length};
ghost use Rattle.mathematics.specs.Writing.{front};
ghost use Rattle.mathematics.specs.Refusals.{first};
ghost use Rattle.complex.specs.Complex.{complex_of};
ghost use Rattle.mathematics.specs.Calls.{Answered, none_lent};
ghost use Rattle.answers.specs.Refusal.{answer_of, judged};
ghost use Rattle.sheet.specs.Sheet.{word, padded, sheet_in, header_tests, Header, reading_call, header_bytes, sheet_bytes, Writable, writing_call};

use acceptance::{accept, accept_truncated, counts_right};
use answers::refusal::Refusal;
use complex::SimplicialComplex;
use numbers::sizes::{LARGEST_TRUNCATION, SHEET_HEADER};

// A complex and its truncation.
#[derive(Clone, Copy)]
pub struct Sheet {
    pub complex: SimplicialComplex,
    pub lambda: usize,
}

// The number of two bytes from i on, low byte first.
#[tactic(auto, unfolding(crate::specs::Sheet::word))]
fn word(b: &[u8], i: usize) -> usize
    requires { i + 1 < length b.now }
    ensures { (result ≡ word b.now i) × (result < 65536) }
{
    usize::from(u16::from_le_bytes([b[i], b[i + 1]]))
}

// What the first eleven bytes and the length say: the first of 1 to 6 that refuses them.
#[tactic(auto, using(crate::proofs::Headers::short_told, crate::proofs::Headers::mark_told, crate::proofs::Headers::version_told, crate::proofs::Headers::counts_told, crate::proofs::Headers::truncation_told, crate::proofs::Headers::length_told, crate::proofs::Headers::header_told))]
fn judge_header(b: &[u8]) -> Result<(), Refusal>
    ensures { judged result ≡ first (header_tests b.now) }
{
    if b.len() < SHEET_HEADER {
        return Err(Refusal::ShortSheet);
    }
    if !b.starts_with(b"GLS") {
        return Err(Refusal::NoMark);
    }
    if word(b, 3) != 1 {
        return Err(Refusal::OtherVersion);
    }
    let m = usize::from(b[6]);
    let t = word(b, 7);
    if !counts_right(usize::from(b[5]), m, t) {
        return Err(Refusal::WrongCounts);
    }
    if LARGEST_TRUNCATION < word(b, 9) {
        return Err(Refusal::LargeTruncation);
    }
    if b.len() != SHEET_HEADER + 2 * m + 3 * t {
        return Err(Refusal::WrongLength);
    }
    Ok(())
}

// A list of bytes in fixed memory, with zeros behind them.
#[tactic(auto, using(crate::proofs::Sheets::padded_is))]
pub fn padded<const N: usize>(bytes: &[u8]) -> [u8; N]
    requires { length bytes.now ≤ N }
    ensures { result ≡ padded N bytes.now }
{
    let mut list = [0; N];
    list[..bytes.len()].copy_from_slice(bytes);
    list
}

// The sheet of bytes that passed the judge of the header.
#[tactic(auto, using(crate::proofs::Sheets::few_pairs, crate::proofs::Sheets::few_triples))]
fn sheet_in(b: &[u8]) -> Sheet
    requires { Header b.now }
    ensures { result ≡ sheet_in b.now }
{
    let m = usize::from(b[6]);
    let (_, lists) = b.split_at(SHEET_HEADER);
    let (pairs, triples) = lists.split_at(2 * m);
    let complex = SimplicialComplex {
        n_vertices: usize::from(b[5]),
        n_edges: m,
        edges: padded(pairs),
        n_triangles: word(b, 7),
        triangles: padded(triples),
    };
    Sheet {
        complex,
        lambda: word(b, 9),
    }
}

// Reads a sheet, or tells the first of 1 to 9 that refuses it.
pub fn read_sheet(b: &[u8]) -> Result<Sheet, Refusal>
    ensures { Answered (reading_call b.now) (answer_of result) none_lent }
{
    judge_header(b)?;
    let sheet = sheet_in(b);
    accept(sheet.complex)?;
    Ok(sheet)
}

// The first eleven bytes.
fn header(v: usize, m: usize, t: usize, lambda: usize) -> [u8; SHEET_HEADER]
    requires { (v < 256) × (m < 256) × (t < 65536) × (lambda < 65536) }
    ensures { result ≡ header_bytes v m t lambda }
{
    let [t_low, t_high] = (t as u16).to_le_bytes();
    let [l_low, l_high] = (lambda as u16).to_le_bytes();
    [
        b'G', b'L', b'S', 1, 0, v as u8, m as u8, t_low, t_high, l_low, l_high,
    ]
}

// The bytes of an accepted sheet, at the front of a list with room for them.
fn write_bytes(s: Sheet, out: &mut [u8])
    requires { Writable s out.old }
    ensures { out.new ≡ front (sheet_bytes (complex_of s.complex) s.lambda) out.old }
{
    let c = s.complex;
    let m = c.n_edges;
    let t = c.n_triangles;
    let triangles_at = SHEET_HEADER + 2 * m;
    out[..SHEET_HEADER].copy_from_slice(&header(c.n_vertices, m, t, s.lambda));
    out[SHEET_HEADER..triangles_at].copy_from_slice(&c.edges[..2 * m]);
    out[triangles_at..triangles_at + 3 * t].copy_from_slice(&c.triangles[..3 * t]);
}

// Writes a sheet: the number of bytes, or the first of 4, 5, 7, 8, 9 and 15 that refuses it.
#[tactic(auto, using(crate::proofs::Sheets::few_edges, crate::proofs::Sheets::few_triangles, crate::proofs::Sheets::writable))]
pub fn write_sheet(s: Sheet, out: &mut [u8]) -> Result<usize, Refusal>
    ensures { Answered (writing_call (complex_of s.complex) s.lambda out.old) (answer_of result) out.new }
{
    let c = s.complex;
    accept_truncated(c, s.lambda)?;
    let size = SHEET_HEADER + 2 * c.n_edges + 3 * c.n_triangles;
    if out.len() < size {
        return Err(Refusal::NoRoom);
    }
    write_bytes(s, out);
    Ok(size)
}
