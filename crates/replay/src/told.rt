// What is printed for the list of answers, in a lent list.
ghost use Rattle.std.specs.Prelude.{◌≤◌, length};
ghost use Rattle.lines.specs.Put.{Put};
ghost use Rattle.replay.specs.Cases.{replayed};
ghost use Rattle.replay.specs.Text.{cases_line, malformed_line, replayed_text};

use crate::walk::replay;
use lines::{write_byte, write_named, write_text};

fn write_cases(out: &mut [u8], cases: usize, differ: usize) -> usize
    requires { 65 ≤ length out.old }
    ensures { Put (cases_line cases differ) out.old 0 out.new result × (result ≤ length out.new) }
{
    let counted = write_named(out, 0, b"replayed ", cases);
    let compared = write_named(out, counted, b" cases: ", differ);
    write_text(out, compared, b" differ\n")
}

fn write_malformed(out: &mut [u8], at: usize) -> usize
    requires { 65 ≤ length out.old }
    ensures { Put (malformed_line at) out.old 0 out.new result × (result ≤ length out.new) }
{
    let next = write_named(out, 0, b"malformed at byte ", at);
    write_byte(out, next, b'\n')
}

// The line for the bytes of a list: the place behind it.
#[tactic(auto, unfolding(crate::specs::Text::replayed_text))]
pub fn write_told(out: &mut [u8], list: &[u8]) -> usize
    requires { 65 ≤ length out.old }
    ensures { Put (replayed_text (replayed list.now)) out.old 0 out.new result × (result ≤ length out.new) }
{
    match replay(list) {
        Ok(counts) => write_cases(out, counts.cases, counts.differ),
        Err(malformed) => write_malformed(out, malformed.at),
    }
}
