// `basis list` reads a sheet from standard input and prints its states, or the number of its refusal. `basis check` tells whether a
// configuration is one of them, or what is wrong with it.
#![tactic(auto)]

ghost use Rattle.std.specs.Prelude.{◌≡◌, ℕ, ◌≤◌, List, OnOk, IfOk, IfSome, length};
ghost use Rattle.std.specs.Io.KnownBytes.{Appends};
ghost use Rattle.answers.specs.Refusal.{number_of};
ghost use Rattle.checking.specs.Text.{check_refusal, check_text};
ghost use Rattle.pages.specs.Pages.{PageReady, Piece};
ghost use Rattle.pages.specs.Text.{basis_refusal, basis_text};
ghost use Rattle.basis.specs.Status.{status_digit, status_after, Answers};

use answers::refusal::{Refusal, sentence};
use checking::value::value_in;
use checking::write_check;
use numbers::sizes::{INPUT_ROOM, MOST_EDGES};
use pages::{Filled, fill_begin, fill_more};
use std::env::{Env, FillError};
use std::io::{Error, ErrorKind, Result, Write};
use streams::{read_input, write_output};

// How a run came out, in the order of the exit statuses.
#[derive(Clone, Copy)]
enum Status {
    Answered,
    Refused,
    WrongUsage,
    Failed,
}

// How many words the command line has, the program's name among them: the first that is absent tells.
fn word_count(env: &impl Env) -> usize {
    (0..usize::MAX)
        .find(|number| matches!(env.arg(*number, &mut []), Err(FillError::NotPresent)))
        .unwrap_or(usize::MAX)
}

// Whether a word of the command line is the text, of at most 16 bytes.
fn is_word(env: &impl Env, number: usize, text: &[u8]) -> bool {
    let mut word = [0u8; 16];
    match env.arg(number, &mut word) {
        Ok(n) => &word[..n] == text,
        Err(_) => text.is_empty(),
    }
}

fn say(rt: &HostRuntime, text: &[u8]) {
    let _ = rt.stderr().write_all(text);
}

// The words of an error of the system, without the number that its text ends with.
fn words_of(text: &[u8]) -> &[u8] {
    let number = b" (os error ";
    match text
        .windows(number.len())
        .position(|part| part == number.as_slice())
    {
        Some(end) => &text[..end],
        None => text,
    }
}

// What failed and why, on a line of standard error.
fn fail(rt: &HostRuntime, what: &[u8], why: Error) {
    let mut text = [0u8; 128];
    let mut room: &mut [u8] = &mut text;
    let _ = write!(room, "{why}");
    let left = room.len();
    say(rt, what);
    say(rt, b": ");
    say(rt, words_of(&text[..text.len().saturating_sub(left)]));
    say(rt, b"\n");
}

// The number and the sentence of a refusal go to standard error.
fn say_refusal(rt: &HostRuntime, number: u8) {
    say(rt, b"basis: refused ");
    let _ = eprint!(rt; "{number}");
    say(rt, b": ");
    say(rt, sentence(usize::from(number)).as_bytes());
    say(rt, b"\n");
}

fn buffer() -> [u8; 32768]
    ensures { 32768 ≡ length result }
{
    [0; 32768]
}

// All bytes go out, or why not all of them could be written. A write that takes nothing does not say why.
fn put<W: Write>(output: &mut W, bytes: &[u8]) -> Result<()>
    ensures { OnOk result (Appends (W.contents output.old) (W.contents output.new) bytes.now) }
{
    let written = write_output(output, bytes);
    if written.n < bytes.len() {
        return Err(written.why.unwrap_or(Error::from(ErrorKind::WriteZero)));
    }
    Ok(())
}

// All bytes go out, and none is kept back.
fn put_all<W: Write>(output: &mut W, bytes: &[u8]) -> Result<()>
    ensures { OnOk result (Appends (W.contents output.old) (W.contents output.new) bytes.now) }
{
    put(output, bytes)?;
    output.flush()
}

// What stands in the list goes out, and then all that is to come, piece by piece. Or why not all of it could be written: nothing follows a piece that could not.
fn print<W: Write>(output: &mut W, out: &mut [u8], first: Filled) -> Result<()>
    requires { (400 ≤ length out.old) × (first.len ≤ length out.old) × IfSome first.next PageReady }
    ensures { OnOk result ((text : List ℕ) → Piece text 0 out.old first → Appends (W.contents output.old) (W.contents output.new) text) }
{
    let mut piece = first;
    put(output, &out[..piece.len])?;
    // By a while: a piece tells where the next one begins.
    while let Some(page) = piece.next {
        piece = fill_more(out, page);
        put(output, &out[..piece.len])?;
    }
    output.flush()
}

// The number of a refusal that there may be, 0 for none.
fn number_of(refusal: Option<Refusal>) -> u8
    ensures { result ≡ number_of refusal }
{
    match refusal {
        None => 0,
        Some(reason) => reason.number(),
    }
}

// How a run ends whose answer was written, or was not: the refusal with the number is told on standard error, or what failed.
fn finish(rt: &HostRuntime, written: Result<()>, number: u8) -> Status
    ensures { result ≡ status_after written number }
{
    if let Err(why) = written {
        fail(
            rt,
            b"basis: the answer could not be written to standard output",
            why,
        );
        return Status::Failed;
    }
    if number == 0 {
        return Status::Answered;
    }
    say_refusal(rt, number);
    Status::Refused
}

// The states of the sheet whose bytes these are.
fn answer<W: Write>(rt: &HostRuntime, output: &mut W, bytes: &[u8]) -> Status
    ensures { Answers (basis_refusal bytes.now) (basis_text bytes.now) (W.contents output.old) (W.contents output.new) result }
{
    let mut out = buffer();
    let begun = fill_begin(&mut out, bytes);
    let written = print(output, &mut out, begun.filled);
    finish(rt, written, number_of(begun.refusal))
}

// Whether the values are a state of the sheet, or what is wrong with them.
fn answer_check<W: Write>(rt: &HostRuntime, output: &mut W, bytes: &[u8], values: &[i32]) -> Status
    ensures { Answers (check_refusal bytes.now values.now) (check_text bytes.now values.now) (W.contents output.old) (W.contents output.new) result }
{
    let mut out = [0u8; 400];
    let checked = write_check(&mut out, bytes, values);
    let written = put_all(output, &out[..checked.len]);
    finish(rt, written, checked.number)
}

// How many bytes standard input has, which go to the front of a list. None where they could not be read, which is told.
fn read_sheet_bytes(rt: &HostRuntime, input: &mut [u8]) -> Option<usize>
    ensures { IfSome result (λ n. n ≤ length input.new) }
{
    match read_input(&mut rt.stdin(), input) {
        Ok(n) => Some(n),
        Err(why) => {
            fail(
                rt,
                b"basis: the sheet could not be read from standard input",
                why,
            );
            None
        }
    }
}

fn list(rt: &HostRuntime) -> Status {
    // one byte more than the longest sheet has
    let mut input = [0u8; INPUT_ROOM];
    match read_sheet_bytes(rt, &mut input) {
        Some(n) => answer(rt, &mut rt.stdout(), &input[..n]),
        None => Status::Failed,
    }
}

// The whole number that a word of the command line says. A word of more than 64 bytes is not read.
fn value_at(env: &impl Env, number: usize) -> Option<i32> {
    let mut word = [0u8; 64];
    match env.arg(number, &mut word) {
        Ok(n) => value_in(&word[..n]),
        Err(_) => None,
    }
}

// The values that the words from the third on say go to the front of a list: how many, or which word says none. Of more words than there is
// room for the first are taken: the list has room for one value more than a sheet can have edges, so they are too many in any case.
fn read_values(
    env: &impl Env,
    words: usize,
    values: &mut [i32],
) -> std::result::Result<usize, usize>
    ensures { IfOk result (λ n. n ≤ length values.new) }
{
    for number in 2..words {
        match value_at(env, number) {
            None => return Err(number),
            Some(value) => {
                if number - 2 < values.len() {
                    values[number - 2] = value;
                }
            }
        }
    }
    Ok(words.saturating_sub(2).min(values.len()))
}

fn check(rt: &HostRuntime, words: usize) -> Status {
    let mut values = [0i32; MOST_EDGES + 1];
    let n = match read_values(rt, words, &mut values) {
        Ok(n) => n,
        Err(number) => return no_number(rt, number),
    };
    let mut input = [0u8; INPUT_ROOM];
    match read_sheet_bytes(rt, &mut input) {
        Some(m) => answer_check(rt, &mut rt.stdout(), &input[..m], &values[..n]),
        None => Status::Failed,
    }
}

// A text on standard output.
fn tell(rt: &HostRuntime, text: &[u8]) -> Status {
    match put_all(&mut rt.stdout(), text) {
        Ok(()) => Status::Answered,
        Err(why) => {
            fail(
                rt,
                b"basis: the text could not be written to standard output",
                why,
            );
            Status::Failed
        }
    }
}

// A word of the command line goes to standard error, of a long one the beginning.
fn say_word(rt: &HostRuntime, number: usize) {
    let mut word = [0u8; 64];
    match rt.arg(number, &mut word) {
        Ok(n) => say(rt, &word[..n]),
        Err(FillError::TooLong) => {
            say(rt, &word);
            say(rt, b"..");
        }
        Err(FillError::NotPresent) => {}
    }
}

// The end of the line that tells what was wrong with the command line, and what is right.
fn end_usage(rt: &HostRuntime) -> Status {
    say(
        rt,
        b"\nusage: basis list < SHEET, or basis check VALUE.. < SHEET, or basis --help, or basis --version\n",
    );
    Status::WrongUsage
}

// What was wrong with the command line, of so many words with the program's name.
fn usage(rt: &HostRuntime, words: usize) -> Status {
    let job = is_word(rt, 1, b"list") | is_word(rt, 1, b"--help") | is_word(rt, 1, b"--version");
    if words < 2 {
        say(rt, b"basis: no job is named");
    } else {
        if job {
            say(rt, b"basis: a word too many: ");
            say_word(rt, 2);
        } else {
            say(rt, b"basis: no such job: ");
            say_word(rt, 1);
        }
    }
    end_usage(rt)
}

// A word that should say a value says none.
fn no_number(rt: &HostRuntime, number: usize) -> Status {
    say(
        rt,
        b"basis: not a whole number from -2147483648 to 2147483647: ",
    );
    say_word(rt, number);
    end_usage(rt)
}

fn help(rt: &HostRuntime) -> Status {
    tell(
        rt,
        b"usage: basis list < SHEET
       basis check VALUE.. < SHEET

basis list: lists the gauge-invariant states of the sheet on standard input. The first line has
its numbers of vertices, edges and triangles, its truncation L and the number of states. Each other
line is a state: its place in the list, then its value on each edge.

basis check: tells whether the values, a whole number for each edge in the sheet's order, are a
state of the sheet. Else it names the lowest vertex that breaks Gauss's law, and its sum; or, where
the law holds, the lowest edge whose value is outside -L to L.

Of a sheet that is not accepted, and of too few or too many values, 'refused' and a number are
printed. What is wrong goes to standard error.

basis --help     prints this
basis --version  prints the version

Exit status of ./basis: 0 answered, 1 refused, 2 wrong usage, 3 input or output failed, 4 not built.
",
    )
}

fn run(rt: &HostRuntime, words: usize) -> Status {
    if words == 2 {
        if is_word(rt, 1, b"list") {
            return list(rt);
        }
        if is_word(rt, 1, b"--help") {
            return help(rt);
        }
        if is_word(rt, 1, b"--version") {
            return tell(rt, b"basis 1.0.0, of Zibrotka\n");
        }
    }
    if is_word(rt, 1, b"check") {
        return check(rt, words);
    }
    usage(rt, words)
}

fn status_digit(status: Status) -> u8
    ensures { result ≡ status_digit status }
{
    b'0' + status as u8
}

// With `--status 3` as its last words the program writes the digit of its status to descriptor 3. It ends with 0 in any case.
fn main(rt: HostRuntime) {
    let words = word_count(&rt);
    if 2 < words {
        if is_word(&rt, words - 2, b"--status") & is_word(&rt, words - 1, b"3") {
            let text = [status_digit(run(&rt, words - 2))];
            io::write_all(3, &text);
            return;
        }
    }
    run(&rt, words);
}
