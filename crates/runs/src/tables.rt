// What the blocks of a walk share.
ghost use Rattle.runs.specs.TablesOf.{TablesOf};

use crate::edges::Kinds;

// The first two cycles, and the edges by what they do to them. Ahead is the first cycle as numbers, beside begins with the second, as often
// as rows are raised at once. Counting needs neither. The width is the number of candidates in a block. Each method asks for what it reads.
#[derive(Clone, Copy)]
pub struct RunTables<'a> {
    pub first: &'a [i8],
    pub second: &'a [i8],
    pub still: &'a [u8],
    pub side: &'a [u8],
    pub moved: &'a [u8],
    pub ahead: &'a [i32],
    pub beside: &'a [i32],
    pub rows: usize,
    pub lambda: usize,
    pub width: usize,
}

impl<'a> RunTables<'a> {
    // The tables for counting, where nothing is ahead or beside.
    pub fn of(
        first: &'a [i8],
        second: &'a [i8],
        kinds: &'a Kinds,
        lambda: usize,
        width: usize,
    ) -> RunTables<'a>
        ensures { TablesOf first.now second.now kinds.now lambda width result }
    {
        RunTables {
            first,
            second,
            still: kinds.still.as_slice(),
            side: kinds.side.as_slice(),
            moved: kinds.moved.as_slice(),
            ahead: &[],
            beside: &[],
            rows: 0,
            lambda,
            width,
        }
    }
}
