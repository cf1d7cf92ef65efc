// The rows of a matrix, written one after the other into a list of starts, one of columns and one of values. These stand apart, as the caller of an
// exported function lends them.
ghost use Rattle.std.specs.Prelude.{◌≡◌, ◌+◌, ◌^◌, ◌<◌, ◌≤◌, length, take};
ghost use Rattle.std.proofs.Math.Seq.{paste};
ghost use Rattle.rows.specs.Entries.{pairs};
ghost use Rattle.rows.specs.Row.{kept};
ghost use Rattle.rows.specs.RowLists.{EntryPushed, RowAppended};

// Whether the absolute value of a float exceeds 0.
#[tactic(auto, using(matrices::proofs::Literals::zero), unfolding(crate::specs::Row::kept))]
pub fn is_kept(x: f64) -> bool
    ensures { result ≡ kept x }
{
    (x < 0.0) | (0.0 < x)
}

// An entry goes behind the first n, where it is taken. How many there are then is told. The test is a bool, and there is no branch: the entry
// is stored each time, and counted where it is taken.
pub fn push_entry(
    columns: &mut [u32],
    values: &mut [f64],
    n: usize,
    column: u32,
    value: f64,
    taken: bool,
) -> usize
    requires { (n < length columns.old) × (length columns.old ≡ length values.old) }
    ensures { EntryPushed (pairs columns.old values.old) n (column, value) taken result (pairs columns.new values.new) }
{
    columns[n] = column;
    values[n] = value;
    n + usize::from(taken)
}

// The first m columns and values of a row go to two lists, from a place on.
pub fn copy_row(
    row_columns: &[u32],
    row_values: &[f64],
    m: usize,
    at: usize,
    columns: &mut [u32],
    values: &mut [f64],
)
    requires { (m ≤ length row_columns.now) × (m ≤ length row_values.now) × (at + m ≤ length columns.old) × (at + m ≤ length values.old) }
    ensures { (columns.new ≡ paste columns.old at row_columns.now m) × (values.new ≡ paste values.old at row_values.now m) }
{
    columns[at..at + m].copy_from_slice(&row_columns[..m]);
    values[at..at + m].copy_from_slice(&row_values[..m]);
}

// Row i, the first m entries of two lists, goes to its place behind the rows before it. Where the next begins is told. The lists stand apart, as the
// caller lends them.
pub fn append_row(
    row_columns: &[u32],
    row_values: &[f64],
    m: usize,
    i: usize,
    at: usize,
    starts: &mut [u32],
    columns: &mut [u32],
    values: &mut [f64],
) -> usize
    requires { (m ≤ length row_columns.now) × (length row_columns.now ≡ length row_values.now) × (i + 1 < length starts.old) × (at + m ≤ length columns.old) × (at + m ≤ length values.old) × (at + m < 2 ^ 32) }
    ensures { RowAppended (take m (pairs row_columns.now row_values.now)) i at starts.old columns.old values.old result starts.new columns.new values.new }
{
    copy_row(row_columns, row_values, m, at, columns, values);
    let next = at + m;
    starts[i + 1] = next as u32;
    next
}
