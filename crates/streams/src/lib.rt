// Reading and writing by a stream, to the end or to the first failure. Which bytes a call of the system moves no contract can say; of a reader and a
// writer whose bytes are known the contracts say which.
#![tactic(auto)]

ghost use Rattle.std.specs.Prelude.{◌≡◌, ◌+◌, ◌<◌, ◌≤◌, IsSome, IfOk, IfErr, length, take};
ghost use Rattle.std.specs.IoError.{error_kind};
ghost use Rattle.std.specs.Io.KnownBytes.{Appends};
ghost use Rattle.streams.specs.Moving.{InputFits, InputTaken};

use std::io::{Error, ErrorKind, Read, Result, Write};

// How often in all a call is tried again that a signal interrupted.
const TRIES: usize = 1000000;

// The tries that are left after a call that a signal interrupted, or why a call failed otherwise.
fn retry(tries: usize, why: Error) -> Result<usize>
    ensures left { IfOk result (λ left. (left + 1 ≡ tries) × (error_kind why ≡ ErrorKind.Interrupted)) }
    ensures failed { IfErr result (λ e. e ≡ why) }
{
    if why.kind() == ErrorKind::Interrupted {
        if 0 < tries {
            return Ok(tries - 1);
        }
    }
    Err(why)
}

// Reads until the list is full or the input ends: how many bytes were read, or why reading failed. By a while: only the call tells how many bytes
// it read.
pub fn read_input<R: Read>(input: &mut R, list: &mut [u8]) -> Result<usize>
    ensures fits { InputFits (length list.old) result }
    ensures taken { InputTaken (R.remaining input.old) (R.remaining input.new) list.new result }
{
    let mut n = 0;
    let mut tries = TRIES;
    while n < list.len() {
        match input.read(&mut list[n..]) {
            Ok(0) => return Ok(n),
            Ok(read) => n += read,
            Err(why) => tries = retry(tries, why)?,
        }
    }
    Ok(n)
}

// How many bytes were written, and why a write failed, where one did: bytes may have gone out before it failed.
#[derive(Clone, Copy)]
pub struct Output {
    pub n: usize,
    pub why: Option<Error>,
}

// Writes all bytes, or stops at the first write that takes nothing or fails. By a while: only the call tells how many bytes it took.
pub fn write_output<W: Write>(output: &mut W, bytes: &[u8]) -> Output
    ensures fits { result.n ≤ length bytes.now }
    ensures why { IsSome result.why → result.n < length bytes.now }
    ensures given { Appends (W.contents output.old) (W.contents output.new) (take result.n bytes.now) }
{
    let mut n = 0;
    let mut tries = TRIES;
    while n < bytes.len() {
        match output.write(&bytes[n..]) {
            Ok(0) => return Output { n, why: None },
            Ok(written) => n += written,
            Err(why) => match retry(tries, why) {
                Ok(left) => tries = left,
                Err(why) => return Output { n, why: Some(why) },
            },
        }
    }
    Output { n, why: None }
}
