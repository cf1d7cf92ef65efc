// The U(1) Hamiltonian as row lists. Each list is lent by a caller of the C interface, and stays a parameter of its own.
ghost use Rattle.std.specs.Prelude.{◌+◌, ◌*◌, ◌^◌, ◌<◌, ◌≤◌, length};
ghost use Rattle.mathematics.specs.Calls.{Answered};
ghost use Rattle.answers.specs.Refusal.{answer_of};
ghost use Rattle.complex.specs.Complex.{complex_of};
ghost use Rattle.matrices.specs.Weights.{weight, Weighed, is_given, given_list};
ghost use Rattle.rows.specs.RowLists.{RowsWritten};
ghost use Rattle.plaquettes.specs.Targets.{BasisList};
ghost use Rattle.triangles.specs.Indices.{AllSides};
ghost use Rattle.entries.specs.Rows.{csr_row, csr_entries};
ghost use Rattle.csr.specs.Csr.{csr_call};

use crate::fill::RowTables;
use crate::words::{write_numbers, write_starts};
use answers::refusal::Refusal;
use complex::SimplicialComplex;
use entries::count::count_rows;
use enumeration::basis::Basis;
use matrices::coupling::{KSParams, is_u1};
use matrices::weights::accept_weights;
use moves::number::Digits;
use moves::tables::{MoveLists, MoveTables};
use plaquettes::target::{Sizes, list_states};
use triangles::all_sides;

// The rows of all states go to the beginning of three lists. Another list begins with the states. All stand apart, as the caller lends them; the tables
// have fixed length, as the library has no heap.
fn write_lists<'x>(
    c: SimplicialComplex,
    all: &'x [u8; 768],
    p: KSParams,
    weights: Option<&[f64]>,
    list: &'x [i32],
    s: Sizes,
    free: &[u8; 63],
    starts: &mut [u32],
    columns: &mut [u32],
    values: &mut [f64],
)
    requires { BasisList (complex_of c) list.now s free.now × AllSides (complex_of c) all.now × ((2 * s.lambda + 1) ^ s.free ≤ 1048576) × Weighed (length (complex_of c).triangles) (is_given weights) (given_list weights) × (s.states < length starts.old) × (csr_entries (complex_of c) s.lambda p (weight (is_given weights) (given_list weights)) ≤ length columns.old) × (csr_entries (complex_of c) s.lambda p (weight (is_given weights) (given_list weights)) ≤ length values.old) }
    ensures { RowsWritten (csr_row (complex_of c) s.lambda p (weight (is_given weights.entry) (given_list weights.entry))) s.states (csr_entries (complex_of c) s.lambda p (weight (is_given weights.entry) (given_list weights.entry))) starts.old columns.old values.old starts.new columns.new values.new }
{
    let digits = Digits {
        free,
        n: s.free,
        lambda: s.lambda,
    };
    let lists = MoveLists::of(c, all, p, weights, digits, s.states);
    let n_moves = 2 * c.n_triangles;
    let keys = &lists.keys[..n_moves];
    let terms = &lists.terms[..n_moves];
    let rows = RowTables {
        list,
        sizes: s,
        electric: p.electric,
        moves: MoveTables {
            all,
            keys,
            terms,
            lambda: s.lambda,
        },
    };
    write_numbers(list, s, digits, starts);
    rows.write_rows(starts, columns, values);
    write_starts(starts, s.states);
}

// The basis of a record goes to the beginning of one list, and the rows of the Hamiltonian on it to that of three others. All is judged
// first, the number of entries too. Weights that are not given are 1.
pub fn build_csr(
    c: SimplicialComplex,
    lambda: usize,
    p: KSParams,
    weights: Option<&[f64]>,
    states: &mut [i32],
    starts: &mut [u32],
    columns: &mut [u32],
    values: &mut [f64],
) -> Result<usize, Refusal>
    ensures { Answered (csr_call (complex_of c) lambda p (is_given weights.entry) (given_list weights.entry) states.old starts.old columns.old values.old) (answer_of result) (states.new, starts.new, columns.new, values.new) }
{
    let basis = Basis::prepare(c, lambda)?;
    accept_weights(c.n_triangles, is_u1(p), weights)?;
    let n = basis.count();
    let all = all_sides(c);
    let entries = count_rows(&basis, &all, c.n_triangles);
    if (states.len() < n * basis.walker.n_edges)
        | ((starts.len() < n + 1) | ((columns.len() < entries) | (values.len() < entries)))
    {
        return Err(Refusal::NoRoom);
    }
    let s = list_states(&basis, states);
    let free = basis.walker.free;
    write_lists(
        c, &all, p, weights, states, s, &free, starts, columns, values,
    );
    Ok(entries)
}
