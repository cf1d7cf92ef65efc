// The entries of a row, found by the moves of its state.
ghost use Rattle.std.specs.Prelude.{◌≡◌, ◌+◌, ◌*◌, ◌-◌, ◌^◌, ◌<◌, ◌≤◌, nat_abs, get_or, length, take, ℕ, cond, Some, None};
ghost use Rattle.complex.specs.Complex.{entries};
ghost use Rattle.rows.specs.Entries.{pairs};
ghost use Rattle.moves.specs.Numbers.{sought, number_in};
ghost use Rattle.plaquettes.specs.Pairs.{stays, Movable};
ghost use Rattle.moves.specs.Moves.{triangle_of, unit_of, move_in, change_in, goes, collected, pointed, StateMoves, Pointers};
ghost use Rattle.moves.specs.Views.{moves_of};

use crate::seek::seek;
use crate::tables::MoveTables;
use plaquettes::pairs::stays;
use rows::lists::{is_kept, push_entry};
use triangles::sides_at;

// The unit of move q: -1 where q is below 256, else 1.
#[tactic(auto, unfolding(crate::specs::Moves::unit_of))]
fn unit_of(q: usize) -> i32
    ensures { (result ≡ unit_of q) × (nat_abs result ≤ 1) }
{
    if q < 256 { -1 } else { 1 }
}

// What the move of a key adds to the number of a state, with 2^20 added.
#[tactic(auto, unfolding(crate::specs::Moves::change_in))]
fn change_in(key: u32) -> usize
    ensures { (result ≡ change_in key) × (result < 2 ^ 23) }
{
    (key / 512) as usize
}

// A row to be made: its number, its state with the number of that, and its diagonal entry.
#[derive(Clone, Copy)]
pub struct RowState<'a> {
    pub i: usize,
    pub state: &'a [i32],
    pub number: usize,
    pub diagonal: f64,
}

impl MoveTables<'_> {
    // Whether the move of a key keeps the three values of a state within -lambda to lambda.
    #[tactic(auto, unfolding(crate::specs::Moves::triangle_of, crate::specs::Moves::move_in))]
    fn goes(&self, state: &[i32], key: u32) -> bool
        requires { Movable state.now (entries self.now.all.now (3 * triangle_of (move_in key)) 3) × (self.now.lambda ≤ 1000) }
        ensures { result ≡ stays self.now.lambda state.now (entries self.now.all.now (3 * triangle_of (move_in key)) 3) (unit_of (move_in key)) }
    {
        let q = (key % 512) as usize;
        stays(state, sides_at(self.all, q % 256), unit_of(q), self.lambda)
    }

    // The place that move k leads to from a row, where it stays: sought from a place on.
    fn target(&self, k: usize, row: RowState<'_>, words: &[u32], from: usize) -> Option<usize>
        requires { (k < length self.now.keys.now) × StateMoves (moves_of self.now) (length self.now.keys.now) self.now.lambda row.state.now × (row.number < 2 ^ 20) × (from ≤ length words.now) }
        ensures is { result ≡ cond (goes (moves_of self.now) self.now.lambda row.entry.state.now k) (Some (sought (number_in words.now) (row.entry.number + change_in (get_or self.now.keys.now k 0)) from (length words.now - from))) None }
        ensures inside { (p : ℕ) → result ≡ Some p → p ≤ length words.now }
    {
        let key = self.keys[k];
        self.goes(row.state, key)
            .then(|| seek(words, from, row.number + change_in(key)))
    }

    // The entries of a row go to the beginning of two lists: the diagonal where it is kept, then those of the moves that stay. How many there are is told.
    // By number: move k, its value and its pointer go together. Columns and values stand apart, as in the lists of the exported functions.
    pub fn collect_row(
        &self,
        row: RowState<'_>,
        words: &[u32],
        pointers: &mut [usize],
        row_columns: &mut [u32],
        row_values: &mut [f64],
    ) -> usize
        requires { (length self.now.keys.now ≤ 512) × StateMoves (moves_of self.now) (length self.now.keys.now) self.now.lambda row.state.now × Pointers (length words.now) pointers.old × (length words.now ≤ 2 ^ 20) × (row.i < 2 ^ 20) × (row.number < 2 ^ 20) × (length self.now.keys.now < length row_columns.old) × (length row_columns.old ≡ length row_values.old) }
        ensures entries { take result (pairs row_columns.new row_values.new) ≡ collected (moves_of self.now) self.now.lambda (number_in words.now) (length words.now) row.entry.state.now row.entry.number pointers.old row.entry.i row.entry.diagonal (length self.now.keys.now) }
        ensures few { result ≤ length self.now.keys.now + 1 }
        ensures pointers { pointers.new ≡ pointed (moves_of self.now) self.now.lambda (number_in words.now) (length words.now) row.entry.state.now row.entry.number pointers.old (length self.now.keys.now) }
    {
        let column = row.i as u32;
        let kept = is_kept(row.diagonal);
        let mut m = push_entry(row_columns, row_values, 0, column, row.diagonal, kept);
        for k in 0..self.keys.len() {
            if let Some(place) = self.target(k, row, words, pointers[k]) {
                let value = self.terms[k];
                pointers[k] = (place + 1).min(words.len());
                m = push_entry(row_columns, row_values, m, place as u32, value, true);
            }
        }
        m
    }
}
