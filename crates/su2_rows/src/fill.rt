// All rows, one after the other, in the three lists that a caller lends: each stays a parameter of its own.
ghost use Rattle.std.specs.Prelude.{◌≡◌, length};
ghost use Rattle.rows.specs.RowLists.{rows_to, SortedWritten};
ghost use Rattle.su2_rows.specs.Rows.{table_entries, RowsFit};

use crate::row::{add_row, flip_row};
use matrices::electric::mask_energy;

// The rows of the first n states go to the beginning of three lists. The tables hold the columns and the terms of the triangles in one row after
// the other, at first those of row 0: they are two, as flip_row takes them.
pub fn write_rows(
    n: usize,
    electric: f64,
    states: &[u64],
    places: &mut [u32],
    terms: &mut [f64],
    starts: &mut [u32],
    columns: &mut [u32],
    values: &mut [f64],
)
    requires { RowsFit n electric states.now places.old terms.old (length places.old) (length starts.old) (length columns.old) (length values.old) × (length places.old ≡ length terms.old) }
    ensures { SortedWritten (table_entries electric states.now places.old terms.old (length places.old)) n (length (rows_to (table_entries electric states.now places.old terms.old (length places.old)) n)) starts.old columns.old values.old starts.new columns.new values.new }
{
    let mut row_columns = [0u32; 257];
    let mut row_values = [0.0f64; 257];
    starts[0] = 0;
    let mut at = 0;
    for (i, state) in states[..n].iter().enumerate() {
        let diagonal = mask_energy(electric, *state);
        at = add_row(
            &mut row_columns,
            &mut row_values,
            i,
            diagonal,
            places,
            terms,
            at,
            starts,
            columns,
            values,
        );
        flip_row(places, terms, (i ^ (i + 1)) as u32);
    }
}
