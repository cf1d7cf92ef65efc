// The sentences of the refusals by their numbers: what is wrong, for a person to read.
#![tactic(auto)]

ghost use Rattle.mathematics.specs.Calls.{Answered};
ghost use Rattle.answers.specs.Refusal.{answer_of};
ghost use Rattle.refusals.specs.Sentences.{text_call};

use answers::refusal::{Refusal, sentence};

// The sentence with a number goes to the front of a list.
pub fn refusal_text(number: usize, text: &mut [u8]) -> Result<usize, Refusal>
    ensures { Answered (text_call number text.old) (answer_of result) text.new }
{
    let sentence = sentence(number).as_bytes();
    if sentence.is_empty() {
        return Err(Refusal::OutOfRange);
    }
    let room = text.len();
    if room < sentence.len() {
        return Err(Refusal::NoRoom);
    }
    for (i, place) in text[..sentence.len()].iter_mut().enumerate() {
        *place = sentence[i];
    }
    Ok(sentence.len())
}
