// The product of a matrix in row lists with a vector.
ghost use Rattle.std.specs.Prelude.{◌≡◌, ℕ, ◌+◌, ◌-◌, ◌<◌, ◌≤◌, get_or, length};
ghost use Rattle.std.proofs.Math.Seq.{slice};
ghost use Rattle.mathematics.specs.Tests.{every_entry};
ghost use Rattle.mathematics.specs.Writing.{front};
ghost use Rattle.mathematics.specs.Calls.{Answered};
ghost use Rattle.answers.specs.Refusal.{answer_of};
ghost use Rattle.rows.specs.Entries.{pairs};
ghost use Rattle.matvec.specs.Product.{row_sum, product, never_falls, starts_right, columns_right, value_right, Valid, product_call};

use answers::refusal::Refusal;
use matrices::weights::{all_bounded, all_within};

// Whether none of the starts is above the next. `is_sorted` stops early, and so takes 1.0 ns a start; this loop takes 0.2 ns.
fn never_falls(starts: &[u32]) -> bool
    ensures { result ≡ never_falls starts.now (length starts.now - 1) }
{
    let mut so_far = true;
    for pair in starts.windows(2) {
        so_far &= pair[0] <= pair[1];
    }
    so_far
}

// Whether the starts of n rows run from 0 to the number of entries without falling.
pub fn starts_right(starts: &[u32], n: usize, entries: usize) -> bool
    requires { length starts.now ≡ n + 1 }
    ensures { result ≡ starts_right starts.now n entries }
{
    ((starts[0] == 0) & (starts[n] as usize == entries)) & never_falls(starts)
}

// Whether every column is below a limit of its own width: such a test is the fastest. `all` stops early, and so takes 0.7 ns a column; this loop takes
// 0.1 ns.
fn columns_below(columns: &[u32], limit: u32) -> bool
    ensures { result ≡ columns_right columns.now limit }
{
    let mut so_far = true;
    for j in columns {
        so_far &= *j < limit;
    }
    so_far
}

// Whether every column is below n.
pub fn columns_right(columns: &[u32], n: usize) -> bool
    ensures { result ≡ columns_right columns.now n }
{
    match u32::try_from(n) {
        Ok(limit) => columns_below(columns, limit),
        Err(_) => true,
    }
}

// Whether every value is from -2^80 to 2^80.
#[tactic(auto, using(crate::proofs::Judging::largest_value), unfolding(crate::specs::Product::value_right))]
pub fn values_right(values: &[f64]) -> bool
    ensures { result ≡ every_entry value_right values.now }
{
    all_within(1208925819614629174706176.0, values)
}

// The sum of a row, whose entries stand from one place to another.
fn row_sum(columns: &[u32], values: &[f64], vector: &[f64], from: usize, to: usize) -> f64
    requires { (from ≤ to) × (to ≤ length columns.now) × (length columns.now ≡ length values.now) × ((k : ℕ) → k < length columns.now → get_or columns.now k 0 < length vector.now) }
    ensures { result ≡ row_sum vector.now (slice from to (pairs columns.now values.now)) }
{
    let mut sum = 0.0;
    for (column, value) in columns[from..to].iter().zip(&values[from..to]) {
        sum += *value * vector[*column as usize];
    }
    sum
}

// The sum of each row goes to the beginning of the result. The end of a row is carried over as the start of the next. Where each row reads both of
// its ends, rows of five entries take 12 ns each or 20 ns, by the place in memory that the code gets; this loop takes 12 ns at each place that was
// tried.
fn multiply(starts: &[u32], columns: &[u32], values: &[f64], vector: &[f64], res: &mut [f64])
    requires { Valid starts.now columns.now values.now vector.now × (length vector.now ≤ length res.old) }
    ensures { res.new ≡ front (product starts.now columns.now values.now vector.now) res.old }
{
    let mut from = starts[0] as usize;
    for (i, sum) in res[..vector.len()].iter_mut().enumerate() {
        let to = starts[i + 1] as usize;
        *sum = row_sum(columns, values, vector, from, to);
        from = to;
    }
}

// The product of row lists with a vector goes to the beginning of the result. The lists are the caller's: all is judged first.
pub fn matvec(
    starts: &[u32],
    columns: &[u32],
    values: &[f64],
    vector: &[f64],
    res: &mut [f64],
) -> Result<usize, Refusal>
    ensures { Answered (product_call starts.now columns.now values.now vector.now res.old) (answer_of result) res.new }
{
    let n = vector.len();
    if (starts.len() != n + 1) | (columns.len() != values.len()) {
        return Err(Refusal::WrongListLength);
    }
    if !starts_right(starts, n, columns.len()) | !columns_right(columns, n) {
        return Err(Refusal::OutOfRange);
    }
    if !values_right(values) | !all_bounded(vector) {
        return Err(Refusal::WrongFloat);
    }
    if res.len() < n {
        return Err(Refusal::NoRoom);
    }
    multiply(starts, columns, values, vector, res);
    Ok(n)
}
