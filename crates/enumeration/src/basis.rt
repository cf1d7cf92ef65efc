// The basis of a record within a truncation: what walks its states.
ghost use Rattle.walker.specs.Tables.{Fit};

use crate::{count_of_blocks, too_many};
use acceptance::accept_truncated;
use answers::refusal::Refusal;
use complex::SimplicialComplex;
use runs::{count_states, write_states};
use walker::blocks::width;
use walker::tables::{Walker, prepare};

// The tables, the truncation and the number of blocks, which fit each other.
#[derive(Clone, Copy)]
pub struct Basis {
    pub walker: Walker,
    pub lambda: usize,
    pub blocks: usize,
    pub ghost fits: { Fit walker lambda blocks },
}

impl Basis {
    ghost use Rattle.std.specs.Prelude.{◌≡◌, ◌*◌, ◌≤◌, ltb, length};
    ghost use Rattle.complex.specs.Complex.{complex_of};
    ghost use Rattle.walker.specs.Blocks.{StatesWritten};
    ghost use Rattle.walker.specs.Tables.{states_of};
    ghost use Rattle.enumeration.specs.Basis.{BasisPrepared};

    // The record, the truncation and the number of candidates are judged, and the walk is prepared.
    pub fn prepare(c: SimplicialComplex, lambda: usize) -> Result<Basis, Refusal>
        ensures { BasisPrepared (complex_of c) lambda result }
    {
        accept_truncated(c, lambda)?;
        let walker = prepare(c, lambda);
        if too_many(walker.n_free, lambda) {
            return Err(Refusal::ManyCandidates);
        }
        let blocks = count_of_blocks(walker.n_free, lambda);
        Ok(Basis {
            walker,
            lambda,
            blocks,
        })
    }

    // How many states there are.
    pub fn count(&self) -> usize
        ensures { result ≡ length (states_of self.now.walker self.now.lambda self.now.blocks) }
    {
        count_states(&self.walker, self.lambda, self.blocks)
    }

    // Whether a list of a length is too short for all states. They are counted only where it could be.
    pub fn is_too_short(&self, room: usize) -> bool
        ensures { result ≡ ltb room (length (states_of self.now.walker self.now.lambda self.now.blocks) * self.now.walker.n_edges) }
    {
        let m = self.walker.n_edges;
        let candidates = self.blocks * width(self.walker.n_free, self.lambda);
        if candidates * m <= room {
            return false;
        }
        room < self.count() * m
    }

    // All states go to the beginning of the list. How many they are.
    pub fn write(&self, states: &mut [i32]) -> usize
        requires { length (states_of self.now.walker self.now.lambda self.now.blocks) * self.now.walker.n_edges ≤ length states.old }
        ensures { StatesWritten (states_of self.now.walker self.now.lambda self.now.blocks) states.old states.new result }
    {
        write_states(&self.walker, self.lambda, self.blocks, states)
    }
}
