// What the exported functions of the two-valued mode do. The coupling comes as three floats, and the weights as a flag and a list, as the C interface
// has them; each list of it is a parameter of its own. Each function is one call: where two have one form, only the call differs, and a function that
// takes the call would have to ask of it all that its own contract says.
#![tactic(auto)]

ghost use Rattle.mathematics.specs.Calls.{none_lent};
ghost use Rattle.matrices.specs.Coupling.{coupling_call, su2_params};
ghost use Rattle.su2_masks.specs.Basis.{su2_basis_call, su2_counted_call};
ghost use Rattle.su2_quantum.specs.Dense.{su2_dense_call};
ghost use Rattle.su2_rows.specs.Rows.{su2_rows_call};
ghost use Rattle.su2_entries.specs.Entries.{su2_entries_call};
ghost use Rattle.su2_products.specs.Product.{su2_product_call};
ghost use Rattle.su2_loops.specs.Loop.{su2_loop_call, su2_passes_call};
ghost use Rattle.exports.specs.Exports.{on_sheet, stored, value_lent, three_floats, Exported};

use exports::{coupling, signed_refusal, signed_result, store_expectation, store_params};
use matrices::coupling::KSParams;
use sheet::read_sheet;
use su2_entries::su2_count_entries;
use su2_loops::{su2_wilson_loop, su2_wilson_passes};
use su2_masks::count::su2_count_states;
use su2_masks::su2_basis;
use su2_products::su2_hamiltonian_matvec;
use su2_quantum::dense::build_su2_hamiltonian;
use su2_rows::build::build_csr_su2;

// All even edge sets of a sheet: their number.
pub fn export_su2_basis(sheet: &[u8], states: &mut [u64]) -> i64
    ensures { Exported (on_sheet sheet.now (λ c L. su2_basis_call c states.old)) result states.new }
{
    match read_sheet(sheet) {
        Ok(s) => signed_result(su2_basis(s.complex, states)),
        Err(refusal) => signed_refusal(refusal),
    }
}

// g² and the factors of the two-valued mode: 0.
pub fn export_su2_params(g_squared: f64, params: &mut [f64; 3]) -> i64
    ensures { Exported (stored (coupling_call g_squared (su2_params g_squared)) three_floats params.old) result params.new }
{
    store_params(KSParams::su2(g_squared), params)
}

// The dense matrix of a sheet in the two-valued mode: the number of its states.
pub fn export_build_su2_hamiltonian(
    sheet: &[u8],
    g_squared: f64,
    electric: f64,
    magnetic: f64,
    given: bool,
    weights: &[f64],
    states: &mut [u64],
    res: &mut [f64],
) -> i64
    ensures { Exported (on_sheet sheet.now (λ c L. su2_dense_call c (record { g_squared = g_squared; electric = electric; magnetic = magnetic }) given weights.now states.old res.old)) result (states.new, res.new) }
{
    let p = coupling(g_squared, electric, magnetic);
    let weights = given.then_some(weights);
    match read_sheet(sheet) {
        Ok(s) => signed_result(build_su2_hamiltonian(s.complex, p, weights, states, res)),
        Err(refusal) => signed_refusal(refusal),
    }
}

// The matrix of a sheet in the two-valued mode as row lists: the number of its entries.
pub fn export_build_csr_su2(
    sheet: &[u8],
    g_squared: f64,
    electric: f64,
    magnetic: f64,
    given: bool,
    weights: &[f64],
    states: &mut [u64],
    starts: &mut [u32],
    columns: &mut [u32],
    values: &mut [f64],
) -> i64
    ensures { Exported (on_sheet sheet.now (λ c L. su2_rows_call c (record { g_squared = g_squared; electric = electric; magnetic = magnetic }) given weights.now states.old starts.old columns.old values.old)) result (states.new, starts.new, columns.new, values.new) }
{
    let p = coupling(g_squared, electric, magnetic);
    let weights = given.then_some(weights);
    match read_sheet(sheet) {
        Ok(s) => signed_result(build_csr_su2(
            s.complex, p, weights, states, starts, columns, values,
        )),
        Err(refusal) => signed_refusal(refusal),
    }
}

// How many even edge sets a sheet has.
#[tactic(auto, using(crate::proofs::Small::counted_small))]
pub fn export_su2_count_states(sheet: &[u8]) -> i64
    ensures { Exported (on_sheet sheet.now (λ c L. su2_counted_call c)) result none_lent }
{
    match read_sheet(sheet) {
        Ok(s) => signed_result(su2_count_states(s.complex)),
        Err(refusal) => signed_refusal(refusal),
    }
}

// How many entries the row lists of a sheet have in the two-valued mode.
#[tactic(auto, using(crate::proofs::Small::count_small))]
pub fn export_su2_count_entries(sheet: &[u8]) -> i64
    ensures { Exported (on_sheet sheet.now (λ c L. su2_entries_call c)) result none_lent }
{
    match read_sheet(sheet) {
        Ok(s) => signed_result(su2_count_entries(s.complex)),
        Err(refusal) => signed_refusal(refusal),
    }
}

// The product of a sheet's matrix in the two-valued mode with a vector: the number of its states.
pub fn export_su2_hamiltonian_matvec(
    sheet: &[u8],
    g_squared: f64,
    electric: f64,
    magnetic: f64,
    given: bool,
    weights: &[f64],
    vector: &[f64],
    states: &mut [u64],
    res: &mut [f64],
) -> i64
    ensures { Exported (on_sheet sheet.now (λ c L. su2_product_call c (record { g_squared = g_squared; electric = electric; magnetic = magnetic }) given weights.now vector.now states.old res.old)) result (states.new, res.new) }
{
    let p = coupling(g_squared, electric, magnetic);
    let weights = given.then_some(weights);
    match read_sheet(sheet) {
        Ok(s) => signed_result(su2_hamiltonian_matvec(s.complex, p, weights, vector, states, res)),
        Err(refusal) => signed_refusal(refusal),
    }
}

// The expectation of a path's loop on a sheet in the two-valued mode, by the set of its edges, goes to a float: 0.
pub fn export_su2_wilson_loop(
    sheet: &[u8],
    vector: &[f64],
    path: &[u8],
    states: &mut [u64],
    expectation: &mut f64,
) -> i64
    ensures { Exported (on_sheet sheet.now (λ c L. value_lent (su2_loop_call c vector.now path.now states.old) expectation.old)) result (states.new, expectation.new) }
{
    match read_sheet(sheet) {
        Ok(s) => store_expectation(
            su2_wilson_loop(s.complex, vector, path, states),
            expectation,
        ),
        Err(refusal) => signed_refusal(refusal),
    }
}

// The same by the path's passes modulo two: 0.
pub fn export_su2_wilson_passes(
    sheet: &[u8],
    vector: &[f64],
    path: &[u8],
    states: &mut [u64],
    expectation: &mut f64,
) -> i64
    ensures { Exported (on_sheet sheet.now (λ c L. value_lent (su2_passes_call c vector.now path.now states.old) expectation.old)) result (states.new, expectation.new) }
{
    match read_sheet(sheet) {
        Ok(s) => store_expectation(
            su2_wilson_passes(s.complex, vector, path, states),
            expectation,
        ),
        Err(refusal) => signed_refusal(refusal),
    }
}
