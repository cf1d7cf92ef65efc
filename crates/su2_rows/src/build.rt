// The two-valued Hamiltonian as row lists. Each list is lent by a caller of the C interface, and stays a parameter of its own.
ghost use Rattle.std.specs.Prelude.{◌≡◌, List, ◌++◌, ℕ, ◌+◌, ◌-◌, ◌*◌, ◌^◌, ◌<◌, ◌≤◌, length};
ghost use Rattle.mathematics.specs.Calls.{Answered};
ghost use Rattle.answers.specs.Refusal.{answer_of};
ghost use Rattle.complex.specs.Complex.{complex_of};
ghost use Rattle.matrices.specs.Weights.{weight, Weighed, is_given, given_list};
ghost use Rattle.rows.specs.RowLists.{RowsWritten};
ghost use Rattle.su2_even_sets.specs.EvenSets.{su2_states};
ghost use Rattle.su2_rows.specs.Rows.{su2_row, su2_entries, su2_rows_call, RowsOf};

use crate::fill::write_rows;
use crate::tables::Flips;
use answers::refusal::Refusal;
use complex::SimplicialComplex;
use matrices::coupling::{KSParams, is_su2};
use matrices::weights::accept_weights;
use su2_even_sets::Forest;
use su2_masks::accepted::accepted_loops;
use su2_masks::write_masks;

// The rows of all states go to the beginning of three lists. Another list begins with the states.
fn write_lists(
    n: usize,
    c: SimplicialComplex,
    f: Forest,
    p: KSParams,
    weights: Option<&[f64]>,
    states: &[u64],
    starts: &mut [u32],
    columns: &mut [u32],
    values: &mut [f64],
)
    requires { RowsOf (complex_of c) f p n (length starts.old) (length columns.old) (length values.old) × Weighed (length (complex_of c).triangles) (is_given weights) (given_list weights) × ((rest : List ℕ) × (states.now ≡ su2_states (complex_of c) ++ rest)) }
    ensures { RowsWritten (su2_row (complex_of c) p (weight (is_given weights.entry) (given_list weights.entry))) n (su2_entries (complex_of c) p (weight (is_given weights.entry) (given_list weights.entry))) starts.old columns.old values.old starts.new columns.new values.new }
{
    let mut flips = Flips::of(c, f, p, weights);
    let many = flips.count;
    let places = &mut flips.places[..many];
    let terms = &mut flips.terms[..many];
    write_rows(
        n, p.electric, states, places, terms, starts, columns, values,
    );
}

// How many entries n rows have: each one for each triangle and one on the diagonal, all but the first, which has none there.
pub fn entries_number(n_triangles: usize, n: usize) -> usize
    requires { (n_triangles ≤ 256) × (0 < n) × (n ≤ 2 ^ 20) }
    ensures { result ≡ (n_triangles + 1) * n - 1 }
{
    (n_triangles + 1) * n - 1
}

// All even edge sets of a record go to the beginning of one list, and the rows of the Hamiltonian on them to that of three others. All is
// judged first, the number of entries too.
pub fn build_csr_su2(
    c: SimplicialComplex,
    p: KSParams,
    weights: Option<&[f64]>,
    states: &mut [u64],
    starts: &mut [u32],
    columns: &mut [u32],
    values: &mut [f64],
) -> Result<usize, Refusal>
    ensures { Answered (su2_rows_call (complex_of c) p (is_given weights.entry) (given_list weights.entry) states.old starts.old columns.old values.old) (answer_of result) (states.new, starts.new, columns.new, values.new) }
{
    let f = accepted_loops(c)?;
    accept_weights(c.n_triangles, is_su2(p), weights)?;
    let n = 1 << f.count;
    let entries = entries_number(c.n_triangles, n);
    if (((states.len() < n) | (starts.len() < n + 1)) | (columns.len() < entries))
        | (values.len() < entries)
    {
        return Err(Refusal::NoRoom);
    }
    write_masks(states, f.loops());
    write_lists(n, c, f, p, weights, states, starts, columns, values);
    Ok(entries)
}
