// Why a call refuses.
ghost use Rattle.std.specs.Prelude.{◌≡◌, Some};
ghost use Rattle.answers.specs.Refusal.{refusal_number};
ghost use Rattle.answers.specs.Sentences.{sentence};

use std::fmt::{Display, Formatter, Write};

// The reasons in the order of their numbers, which begin at 1. The last number, 17, is told with what was found (`Unplaced`).
#[derive(Clone, Copy, Debug, PartialEq, Eq)]
pub enum Refusal {
    ShortSheet = 1,
    NoMark,
    OtherVersion,
    WrongCounts,
    LargeTruncation,
    WrongLength,
    WrongEdge,
    WrongTriangle,
    Disconnected,
    ManyCandidates,
    WrongPentachoron,
    WrongListLength,
    OutOfRange,
    WrongFloat,
    NoRoom,
    OutOfBand,
}

// What is wrong, for a person to read, by the number of the reason. No sentence where no reason has the number.
#[tactic(auto, unfolding(crate::specs::Sentences::refusals, crate::specs::Sentences::sentence_in, crate::specs::Sentences::sentence))]
pub fn sentence(number: usize) -> &'static str
    ensures { result.now ≡ sentence number }
{
    match number {
        1 => "the sheet has fewer than 11 bytes",
        2 => "the sheet does not begin with the mark GLS",
        3 => "the sheet's version is not 1",
        4 => {
            "the number of vertices is not 1 to 64, or there are more than 63 edges or more than 256 triangles"
        }
        5 => "the truncation L is over 1000",
        6 => {
            "the length does not fit the counts: a sheet has 11 + 2E + 3T bytes, a flat list two entries an edge and three a triangle"
        }
        7 => "an edge is not a < b < V, or is listed twice",
        8 => {
            "a triangle is not a < b < c < V, is listed twice, or has an edge that is not listed"
        }
        9 => { "some vertex cannot be reached from vertex 0 over the listed edges" }
        10 => {
            "there are more than 1048576 candidates: too many free edges, or for U(1) too large a truncation for them"
        }
        11 => {
            "a pentachoron has a vertex that is not below V or one vertex twice, or their flat list is no multiple of five long"
        }
        12 => "a list does not have the length that it must have",
        13 => {
            "a number is outside its range: no such edge, triangle, state, column or refusal, starts that do not run from 0 to the number of entries, or a direction that is not 1 or -1"
        }
        14 => {
            "a float is outside its range, or a coupling record's factors are not those of its coupling in the mode of the call"
        }
        15 => "a list for the result, or a work list, is too short",
        16 => "a shifted edge leaves -L to L",
        17 => "the configuration is not in the basis",
        _ => "",
    }
}

impl Refusal {
    // The number by which the exported functions and the documents name a reason.
    pub fn number(self) -> u8
        ensures { result ≡ refusal_number self }
    {
        self as u8
    }

    // What is wrong, for a person to read.
    pub fn sentence(self) -> &'static str
        ensures { result.now ≡ sentence (refusal_number self) }
    {
        sentence(usize::from(self.number()))
    }
}

impl Display for Refusal {
    ghost output = { λ r. Some (sentence (refusal_number r)) };

    fn fmt<W: Write>(&self, f: &mut Formatter<W>) -> std::fmt::Result {
        f.write_str(self.sentence())
    }
}
