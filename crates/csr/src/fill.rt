// All rows, one after the other. While they are made, the list of starts holds the numbers of the states and the lengths of the rows.
ghost use Rattle.std.specs.Prelude.{◌≡◌, List, ℕ, ◌+◌, ◌^◌, ◌<◌, ◌≤◌, get_or, length, replicate};
ghost use Rattle.rows.specs.Entries.{pairs};
ghost use Rattle.rows.specs.Row.{ColumnsDiffer};
ghost use Rattle.rows.specs.RowLists.{RowFits};
ghost use Rattle.plaquettes.specs.Rows.{SmallRows};
ghost use Rattle.moves.specs.Moves.{Pointers};
ghost use Rattle.csr.specs.Fill.{entries_from, Walking, RowFound, RowDone, WalkAt, Writable};
ghost use Rattle.csr.specs.Views.{walk_by};

use crate::words::set_length;
use moves::row::RowState;
use moves::seek::lower;
use moves::tables::MoveTables;
use plaquettes::rows::{row_at, row_energy};
use plaquettes::target::Sizes;
use rows::lists::copy_row;
use rows::row::sort_row;

// Room for a row: for each move a pointer to the place from which its next target is sought, and lists of columns and values. The memory is fixed: the
// library has no heap.
#[derive(Drop)]
struct RowRoom {
    pointers: [usize; 512],
    columns: [u32; 513],
    values: [f64; 513],
    ghost columns_long: { length columns ≡ 513 },
    ghost values_long: { length values ≡ 513 },
}

impl RowRoom {
    // All pointers at the first state.
    fn new() -> RowRoom
        ensures { result.pointers ≡ replicate 512 0 }
    {
        RowRoom {
            pointers: [0; 512],
            columns: [0; 513],
            values: [0.0; 513],
        }
    }
}

// What each row is made of: a list that begins with the states, its sizes, the electric factor and the moves.
#[derive(Clone, Copy)]
pub struct RowTables<'a> {
    pub list: &'a [i32],
    pub sizes: Sizes,
    pub electric: f64,
    pub moves: MoveTables<'a>,
}

impl RowTables<'_> {
    // The row of state i, found by the moves of its state. How many entries it has is told.
    fn find_row(&self, i: usize, words: &[u32], room: &mut RowRoom) -> usize
        requires { Walking (walk_by self.now words.now) × SmallRows self.now.list.now self.now.sizes.states self.now.sizes.edges × (i < self.now.sizes.states) × (self.now.sizes.states ≤ length words.now) × Pointers self.now.sizes.states room.old.pointers × ColumnsDiffer (entries_from (walk_by self.now words.now) room.old.pointers i) }
        ensures found { RowFound (walk_by self.now words.now) i room.old.pointers result room.new.pointers (pairs room.new.columns room.new.values) }
        ensures few { result ≤ length self.now.moves.keys.now + 1 }
    {
        let s = self.sizes;
        let row = RowState {
            i,
            state: row_at(self.list, s.edges, i),
            number: lower(words[i]),
            diagonal: row_energy(self.list, s.edges, i, self.electric),
        };
        let found = self.moves.collect_row(
            row,
            &words[..s.states],
            &mut room.pointers,
            &mut room.columns,
            &mut room.values,
        );
        sort_row(&mut room.columns, &mut room.values, found);
        found
    }

    // The row of state i goes to two lists, from a place on, and its length to the upper bits of its word. Where the next begins is told. The two lists stand
    // apart, as the caller lends them.
    fn add_row(
        &self,
        i: usize,
        words: &mut [u32],
        room: &mut RowRoom,
        at: usize,
        columns: &mut [u32],
        values: &mut [f64],
    ) -> usize
        requires { Walking (walk_by self.now words.old) × SmallRows self.now.list.now self.now.sizes.states self.now.sizes.edges × (i < self.now.sizes.states) × (self.now.sizes.states ≤ length words.old) × Pointers self.now.sizes.states room.old.pointers × ColumnsDiffer (entries_from (walk_by self.now words.old) room.old.pointers i) × (get_or words.old i 0 < 2 ^ 20) × RowFits (entries_from (walk_by self.now words.old) room.old.pointers i) at (length columns.old) (length values.old) }
        ensures { RowDone (walk_by self.now words.old) i at room.old.pointers words.old columns.old values.old result room.new.pointers words.new columns.new values.new }
    {
        let count = self.find_row(i, words, room);
        copy_row(&room.columns, &room.values, count, at, columns, values);
        set_length(words, i, count);
        at + count
    }

    // The rows of all states go to the beginning of two lists, and their lengths to the upper bits of the words. By number: state i and its word go together.
    pub fn write_rows(&self, words: &mut [u32], columns: &mut [u32], values: &mut [f64])
        requires { SmallRows self.now.list.now self.now.sizes.states self.now.sizes.edges × Writable (walk_by self.now words.old) words.old (length columns.old) (length values.old) }
        ensures { (at : ℕ) × (pointers : List ℕ) × WalkAt (walk_by self.now words.old) words.old columns.old values.old self.now.sizes.states at pointers words.new columns.new values.new }
    {
        let mut room = RowRoom::new();
        let mut at = 0;
        for i in 0..self.sizes.states {
            at = self.add_row(i, words, &mut room, at, columns, values);
        }
    }
}
