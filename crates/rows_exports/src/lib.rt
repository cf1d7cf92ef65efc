// What the exported functions on row lists do that are of no mode.
#![tactic(auto)]

ghost use Rattle.std.specs.Prelude.{◌≡◌};
ghost use Rattle.answers.specs.Refusal.{answer_of};
ghost use Rattle.matvec.specs.Product.{product_call};
ghost use Rattle.exports.specs.Exports.{zero_of, zero_told, Exported};

use answers::refusal::Refusal;
use exports::signed_result;
use matvec::product::matvec;

// The number of rows is not told: no bound of it is known.
#[tactic(auto, unfolding(exports::specs::Exports::zero_of))]
fn untold(answer: Result<usize, Refusal>) -> Result<usize, Refusal>
    ensures { answer_of result ≡ zero_of (answer_of answer) }
{
    answer.map(|_| 0)
}

// The product of row lists with a vector: 0.
pub fn export_matvec(
    starts: &[u32],
    columns: &[u32],
    values: &[f64],
    vector: &[f64],
    res: &mut [f64],
) -> i64
    ensures { Exported (zero_told (product_call starts.now columns.now values.now vector.now res.old)) result res.new }
{
    signed_result(untold(matvec(starts, columns, values, vector, res)))
}
