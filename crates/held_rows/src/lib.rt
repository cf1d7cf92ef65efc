// The row lists of a matrix, held as one record that borrows them.
#![tactic(auto)]

ghost use Rattle.std.specs.Prelude.{◌≡◌, length};
ghost use Rattle.mathematics.specs.Calls.{Answered, none_lent};
ghost use Rattle.answers.specs.Refusal.{answer_of};
ghost use Rattle.matvec.specs.Product.{product_call};
ghost use Rattle.held_rows.specs.Lists.{row_count, lists_call};

use answers::refusal::Refusal;
use matvec::product::{columns_right, matvec, starts_right, values_right};

// How many rows the starts tell of.
pub fn count_rows(starts: &[u32]) -> usize
    ensures { result ≡ row_count starts.now }
{
    starts.len().saturating_sub(1)
}

// What can be told of row lists without a vector: the number of rows, or the refusal of every product.
pub fn judge_lists(starts: &[u32], columns: &[u32], values: &[f64]) -> Result<usize, Refusal>
    ensures { Answered (lists_call starts.now columns.now values.now) (answer_of result) none_lent }
{
    if starts.is_empty() | (columns.len() != values.len()) {
        return Err(Refusal::WrongListLength);
    }
    let n = count_rows(starts);
    if !starts_right(starts, n, columns.len()) | !columns_right(columns, n) {
        return Err(Refusal::OutOfRange);
    }
    if !values_right(values) {
        return Err(Refusal::WrongFloat);
    }
    Ok(n)
}

// The three lists of a matrix, as lent. Each method takes the record apart and hands over to a function on plain lists.
#[derive(Clone, Copy)]
pub struct RowLists<'s, 'c, 'v> {
    pub starts: &'s [u32],
    pub columns: &'c [u32],
    pub values: &'v [f64],
}

impl<'s, 'c, 'v> RowLists<'s, 'c, 'v> {
    // Any three lists are held; `judge` tells whether they are those of a matrix.
    pub fn new(starts: &'s [u32], columns: &'c [u32], values: &'v [f64]) -> Self
        ensures { (result.starts ≡ starts.entry) × (result.columns ≡ columns.entry) × (result.values ≡ values.entry) }
    {
        Self {
            starts,
            columns,
            values,
        }
    }

    // The number of rows that the starts tell of. Nothing is judged.
    pub fn nrows(self) -> usize
        ensures { result ≡ row_count self.entry.starts.now }
    {
        count_rows(self.starts)
    }

    // The number of entries. Nothing is judged.
    pub fn nnz(self) -> usize
        ensures { result ≡ length self.entry.values.now }
    {
        self.values.len()
    }

    // The number of rows, or why a product with any vector is refused.
    pub fn judge(self) -> Result<usize, Refusal>
        ensures { Answered (lists_call self.entry.starts.now self.entry.columns.now self.entry.values.now) (answer_of result) none_lent }
    {
        judge_lists(self.starts, self.columns, self.values)
    }

    // The product with a vector.
    pub fn matvec<'x, 'y>(self, vector: &'x [f64], res: &'y mut [f64]) -> Result<usize, Refusal>
        ensures { Answered (product_call self.entry.starts.now self.entry.columns.now self.entry.values.now vector.now res.old) (answer_of result) res.new }
    {
        matvec(self.starts, self.columns, self.values, vector, res)
    }
}

// The product through the record, for callers that have plain lists.
pub fn held_matvec(
    starts: &[u32],
    columns: &[u32],
    values: &[f64],
    vector: &[f64],
    res: &mut [f64],
) -> Result<usize, Refusal>
    ensures { Answered (product_call starts.now columns.now values.now vector.now res.old) (answer_of result) res.new }
{
    RowLists::new(starts, columns, values).matvec(vector, res)
}
