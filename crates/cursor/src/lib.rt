// A cursor over the states: from one to the next, with the number of each.
#![tactic(auto)]

pub mod states;
pub mod tables;

use walker::blocks::{interval, width};
use walker::tables::Walker;

// Beside the assignment of a block: the state is that with the first cycle added d times, the states of the block end before `to`,
// left is the number of blocks from this one on, 0 behind the last state, and number the place of the state in the list.
#[derive(Clone, Copy)]
pub struct Cursor {
    pub left: usize,
    pub d: usize,
    pub to: usize,
    pub number: usize,
}

impl Cursor {
    ghost use Rattle.std.specs.Prelude.{◌+◌, ◌^◌, ◌<◌, ◌≤◌, length};
    ghost use Rattle.cycles.specs.Cycles.{row};
    ghost use Rattle.walker.specs.Walker.{walked_states};
    ghost use Rattle.walker.specs.Steps.{Walkable};
    ghost use Rattle.cursor.specs.Cursor.{Standing, First, NextBlock, Next};

    // At the first state of some blocks, which gets the number. How many blocks are behind the block is part of the cursor.
    pub fn first(
        config: &mut [i32],
        w: &Walker,
        lambda: usize,
        blocks: usize,
        number: usize,
    ) -> Cursor
        requires { Walkable w.now.free w.now.cycles lambda w.now.n_free config.old blocks × (number + length (walked_states w.now.free (row (length config.old) w.now.cycles) lambda w.now.n_free config.old blocks) ≤ 2 ^ 40) }
        ensures { First w.now.free w.now.cycles lambda w.now.n_free config.old blocks number config.new result }
    {
        let n = width(w.n_free, lambda);
        for behind in (0..blocks).rev() {
            let span = interval(config, &w.cycles[..config.len()], lambda, n);
            if span.from < span.to {
                return Cursor {
                    left: behind + 1,
                    d: span.from,
                    to: span.to,
                    number,
                };
            }
            w.step(config, lambda, 1);
        }
        Cursor {
            left: 0,
            d: 0,
            to: 0,
            number,
        }
    }

    // From a state to the first behind its block.
    pub fn next_block(self, config: &mut [i32], w: &Walker, lambda: usize) -> Cursor
        requires { Standing w.now.free w.now.cycles lambda w.now.n_free config.old self × (0 < self.left) }
        ensures { NextBlock w.now.free w.now.cycles lambda w.now.n_free config.old self config.new result }
    {
        w.step(config, lambda, 1);
        Cursor::first(
            config,
            w,
            lambda,
            self.left - 1,
            self.number + (self.to - self.d),
        )
    }

    // From a state to the next.
    pub fn next(self, config: &mut [i32], w: &Walker, lambda: usize) -> Cursor
        requires { Standing w.now.free w.now.cycles lambda w.now.n_free config.old self × (0 < self.left) }
        ensures { Next w.now.free w.now.cycles lambda w.now.n_free config.old self config.new result }
    {
        if self.d + 1 < self.to {
            return Cursor {
                d: self.d + 1,
                number: self.number + 1,
                ..self
            };
        }
        self.next_block(config, w, lambda)
    }
}
