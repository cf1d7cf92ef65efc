// A row of the two-valued Hamiltonian, made of the columns and the terms of all triangles. Columns and values stand apart, as in the lists of the
// exported functions: rows/src/row.rt says so.
ghost use Rattle.std.specs.Prelude.{◌≡◌, ◌+◌, ◌^◌, ◌<◌, ◌≤◌, EachIndex, get_or, length, take};
ghost use Rattle.std.specs.Int.Bits.{bit_xor};
ghost use Rattle.rows.specs.Entries.{pairs};
ghost use Rattle.rows.specs.Row.{diagonal_first, ColumnsDiffer, Sorted};
ghost use Rattle.rows.specs.RowLists.{RowFits};
ghost use Rattle.su2_rows.specs.Rows.{flipped_entries, RowAdded};

use rows::lists::{append_row, is_kept, push_entry};
use rows::row::sort_row;

// The entries of row i: the diagonal where it is kept, then that of each triangle. How many there are is told.
fn collect_row(
    row_columns: &mut [u32],
    row_values: &mut [f64],
    i: usize,
    diagonal: f64,
    flips: &[u32],
    terms: &[f64],
) -> usize
    requires { (i < 2 ^ 20) × (length flips.now < length row_columns.old) × (length row_columns.old ≡ length row_values.old) × (length flips.now ≡ length terms.now) }
    ensures { (take result (pairs row_columns.new row_values.new) ≡ diagonal_first i diagonal (pairs flips.now terms.now)) × (result ≤ length flips.now + 1) }
{
    let column = i as u32;
    let kept = is_kept(diagonal);
    let mut m = push_entry(row_columns, row_values, 0, column, diagonal, kept);
    for (flip, term) in flips.iter().zip(terms) {
        m = push_entry(row_columns, row_values, m, *flip, *term, true);
    }
    m
}

// Row i goes behind the rows before it. Where the next begins is told.
pub fn add_row(
    row_columns: &mut [u32],
    row_values: &mut [f64],
    i: usize,
    diagonal: f64,
    flips: &[u32],
    terms: &[f64],
    at: usize,
    starts: &mut [u32],
    columns: &mut [u32],
    values: &mut [f64],
) -> usize
    requires { (i < 2 ^ 20) × (length flips.now < length row_columns.old) × (length row_columns.old ≡ length row_values.old) × (length flips.now ≡ length terms.now) × (i + 1 < length starts.old) × ColumnsDiffer (diagonal_first i diagonal (pairs flips.now terms.now)) × RowFits (diagonal_first i diagonal (pairs flips.now terms.now)) at (length columns.old) (length values.old) }
    ensures { RowAdded (diagonal_first i diagonal (pairs flips.now terms.now)) i at starts.old columns.old values.old result starts.new columns.new values.new }
{
    let found = collect_row(row_columns, row_values, i, diagonal, flips, terms);
    sort_row(row_columns, row_values, found);
    append_row(
        row_columns,
        row_values,
        found,
        i,
        at,
        starts,
        columns,
        values,
    )
}

// The columns of a row, each flipped by the same bits.
fn flip_columns(columns: &mut [u32], by: u32)
    ensures { EachIndex columns.new (λ t. get_or columns.new t 0 ≡ bit_xor (get_or columns.old t 0) by) }
{
    for column in columns.iter_mut() {
        *column ^= by;
    }
}

// The columns of the triangles in one row become those in another, and are sorted with their terms. From a row to the next few change their order.
pub fn flip_row(flips: &mut [u32], terms: &mut [f64], by: u32)
    requires { (length flips.old ≡ length terms.old) × ColumnsDiffer (pairs flips.old terms.old) }
    ensures { Sorted (flipped_entries by (pairs flips.old terms.old)) (pairs flips.new terms.new) }
{
    flip_columns(flips, by);
    sort_row(flips, terms, flips.len());
}
