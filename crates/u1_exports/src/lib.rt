// What the exported functions of U(1) do. The coupling comes as three floats, and the weights as a flag and a list, as the C interface has them; each
// list of it is a parameter of its own. Each function is one call: where two have one form, only the call differs, and a function that takes the call
// would have to ask of it all that its own contract says.
#![tactic(auto)]

ghost use Rattle.std.specs.Prelude.{◌≡◌};
ghost use Rattle.mathematics.specs.Calls.{none_lent};
ghost use Rattle.law_check.specs.Law.{law_call};
ghost use Rattle.enumeration.specs.Enumeration.{enumerated_call, counted_call};
ghost use Rattle.hilbert.specs.Basis.{Unlisted};
ghost use Rattle.hilbert.specs.Index.{index_call};
ghost use Rattle.shifts.specs.Shift.{shift_call, ShiftUnlisted};
ghost use Rattle.matrices.specs.Coupling.{coupling_call, u1_params};
ghost use Rattle.plaquettes.specs.Triangle.{triangle_call};
ghost use Rattle.hamiltonian.specs.Dense.{u1_dense_call};
ghost use Rattle.csr.specs.Csr.{csr_call};
ghost use Rattle.entries.specs.Entries.{entries_call};
ghost use Rattle.lanczos.specs.Matvec.{u1_product_call};
ghost use Rattle.electric.specs.Electric.{electric_call};
ghost use Rattle.wilson.specs.Wilson.{wilson_call};
ghost use Rattle.exports.specs.Exports.{complex_in, lambda_in, on_sheet, none_found, found_lent, stored, value_lent, three_floats, Exported};
ghost use Rattle.exports.specs.Findings.{law_numbers, FindingExported};

use csr::build::build_csr;
use electric::electric_field_sq;
use entries::count_entries;
use enumeration::count::count_states;
use enumeration::enumerate_gauge_invariant;
use exports::{
    coupling, signed_place, signed_refusal, signed_result, signed_unlawful, store_expectation,
    store_params, store_place, store_unlawful,
};
use hamiltonian::dense::build_hamiltonian;
use hilbert::index::config_to_index;
use lanczos::matvec::hamiltonian_matvec;
use law_check::check_gauss_law;
use matrices::coupling::KSParams;
use plaquettes::triangle::apply_triangle_shift;
use sheet::read_sheet;
use shifts::apply_shift;
use wilson::{Path, wilson_loop};

// Whether a configuration obeys Gauss's law on a sheet's complex: 1 or 0.
pub fn export_check_gauss_law(sheet: &[u8], configuration: &[i32]) -> i64
    ensures { Exported (on_sheet sheet.now (λ c L. none_found (law_call c configuration.now))) result none_lent }
{
    match read_sheet(sheet) {
        Ok(s) => signed_unlawful(check_gauss_law(s.complex, configuration)),
        Err(refusal) => signed_refusal(refusal),
    }
}

// The same, and the lowest vertex that breaks the law, with its excess.
pub fn export_check_gauss_law_finding(
    sheet: &[u8],
    configuration: &[i32],
    vertex: &mut u64,
    excess: &mut i64,
) -> i64
    ensures { Exported (on_sheet sheet.now (λ c L. found_lent (law_call c configuration.now) law_numbers (vertex.old, excess.old))) result (vertex.new, excess.new) }
{
    match read_sheet(sheet) {
        Ok(s) => store_unlawful(check_gauss_law(s.complex, configuration), vertex, excess),
        Err(refusal) => signed_refusal(refusal),
    }
}

// All states of a sheet: their number.
pub fn export_enumerate_gauge_invariant(sheet: &[u8], states: &mut [i32]) -> i64
    ensures { Exported (on_sheet sheet.now (λ c L. enumerated_call c L states.old)) result states.new }
{
    match read_sheet(sheet) {
        Ok(s) => signed_result(enumerate_gauge_invariant(s.complex, s.lambda, states)),
        Err(refusal) => signed_refusal(refusal),
    }
}

// The place of a configuration among the states of a sheet.
pub fn export_config_to_index(sheet: &[u8], configuration: &[i32], states: &mut [i32]) -> i64
    ensures { Exported (on_sheet sheet.now (λ c L. index_call c L configuration.now states.old)) result states.new }
{
    match read_sheet(sheet) {
        Ok(s) => signed_place(config_to_index(s.complex, s.lambda, configuration, states)),
        Err(refusal) => signed_refusal(refusal),
    }
}

// The same, and why the configuration is not in the basis, where it is not.
pub fn export_config_to_index_finding(
    sheet: &[u8],
    configuration: &[i32],
    states: &mut [i32],
    vertex: &mut u64,
    excess: &mut i64,
    edge: &mut u64,
) -> i64
    ensures { FindingExported (on_sheet sheet.now (λ c L. index_call c L configuration.now states.old)) (Unlisted (complex_in sheet.now) (lambda_in sheet.now) configuration.now) (vertex.old, excess.old, edge.old) result states.new (vertex.new, excess.new, edge.new) }
{
    match read_sheet(sheet) {
        Ok(s) => {
            let answer = config_to_index(s.complex, s.lambda, configuration, states);
            store_place(answer, vertex, excess, edge)
        }
        Err(refusal) => signed_refusal(refusal),
    }
}

// The place of a configuration with a delta added on one edge.
#[tactic(auto, using(crate::proofs::Small::shift_small))]
pub fn export_apply_shift(
    sheet: &[u8],
    configuration: &[i32],
    edge: u64,
    delta: i32,
    states: &mut [i32],
    res: &mut [i32],
) -> i64
    ensures { Exported (on_sheet sheet.now (λ c L. shift_call c L configuration.now edge delta states.old res.old)) result (states.new, res.new) }
{
    match read_sheet(sheet) {
        Ok(s) => signed_place(apply_shift(
            s.complex,
            s.lambda,
            configuration,
            edge as usize,
            delta,
            states,
            res,
        )),
        Err(refusal) => signed_refusal(refusal),
    }
}

// The same, and why the shifted configuration is not in the basis, where it is not: `shifted` is the edge that is shifted, `edge` one that is found.
#[tactic(auto, using(crate::proofs::Small::shift_small))]
pub fn export_apply_shift_finding(
    sheet: &[u8],
    configuration: &[i32],
    shifted: u64,
    delta: i32,
    states: &mut [i32],
    res: &mut [i32],
    vertex: &mut u64,
    excess: &mut i64,
    edge: &mut u64,
) -> i64
    ensures { FindingExported (on_sheet sheet.now (λ c L. shift_call c L configuration.now shifted delta states.old res.old)) (ShiftUnlisted (complex_in sheet.now) (lambda_in sheet.now) configuration.now shifted delta) (vertex.old, excess.old, edge.old) result (states.new, res.new) (vertex.new, excess.new, edge.new) }
{
    match read_sheet(sheet) {
        Ok(s) => {
            let answer = apply_shift(
                s.complex,
                s.lambda,
                configuration,
                shifted as usize,
                delta,
                states,
                res,
            );
            store_place(answer, vertex, excess, edge)
        }
        Err(refusal) => signed_refusal(refusal),
    }
}

// The place of the state that a triangle's shift makes of a sheet's state at a place.
pub fn export_apply_triangle_shift(
    sheet: &[u8],
    triangle: u64,
    state: u64,
    states: &mut [i32],
) -> i64
    ensures { Exported (on_sheet sheet.now (λ c L. triangle_call c L triangle state states.old)) result states.new }
{
    match read_sheet(sheet) {
        Ok(s) => signed_result(apply_triangle_shift(
            s.complex,
            s.lambda,
            triangle as usize,
            state as usize,
            states,
        )),
        Err(refusal) => signed_refusal(refusal),
    }
}

// g² and the factors of U(1): 0.
pub fn export_u1_params(g_squared: f64, params: &mut [f64; 3]) -> i64
    ensures { Exported (stored (coupling_call g_squared (u1_params g_squared)) three_floats params.old) result params.new }
{
    store_params(KSParams::u1(g_squared), params)
}

// The dense matrix of a sheet: the number of its states.
pub fn export_build_hamiltonian(
    sheet: &[u8],
    g_squared: f64,
    electric: f64,
    magnetic: f64,
    given: bool,
    weights: &[f64],
    states: &mut [i32],
    res: &mut [f64],
) -> i64
    ensures { Exported (on_sheet sheet.now (λ c L. u1_dense_call c L (record { g_squared = g_squared; electric = electric; magnetic = magnetic }) given weights.now states.old res.old)) result (states.new, res.new) }
{
    let weights = given.then_some(weights);
    match read_sheet(sheet) {
        Ok(s) => signed_result(build_hamiltonian(
            s.complex,
            s.lambda,
            coupling(g_squared, electric, magnetic),
            weights,
            states,
            res,
        )),
        Err(refusal) => signed_refusal(refusal),
    }
}

// The matrix of a sheet as row lists: the number of its entries.
pub fn export_build_csr(
    sheet: &[u8],
    g_squared: f64,
    electric: f64,
    magnetic: f64,
    given: bool,
    weights: &[f64],
    states: &mut [i32],
    starts: &mut [u32],
    columns: &mut [u32],
    values: &mut [f64],
) -> i64
    ensures { Exported (on_sheet sheet.now (λ c L. csr_call c L (record { g_squared = g_squared; electric = electric; magnetic = magnetic }) given weights.now states.old starts.old columns.old values.old)) result (states.new, starts.new, columns.new, values.new) }
{
    let weights = given.then_some(weights);
    match read_sheet(sheet) {
        Ok(s) => signed_result(build_csr(
            s.complex,
            s.lambda,
            coupling(g_squared, electric, magnetic),
            weights,
            states,
            starts,
            columns,
            values,
        )),
        Err(refusal) => signed_refusal(refusal),
    }
}

// How many states a sheet has.
pub fn export_count_states(sheet: &[u8]) -> i64
    ensures { Exported (on_sheet sheet.now (λ c L. counted_call c L)) result none_lent }
{
    match read_sheet(sheet) {
        Ok(s) => signed_result(count_states(s.complex, s.lambda)),
        Err(refusal) => signed_refusal(refusal),
    }
}

// How many entries the row lists of a sheet have.
pub fn export_count_entries(sheet: &[u8]) -> i64
    ensures { Exported (on_sheet sheet.now (λ c L. entries_call c L)) result none_lent }
{
    match read_sheet(sheet) {
        Ok(s) => signed_result(count_entries(s.complex, s.lambda)),
        Err(refusal) => signed_refusal(refusal),
    }
}

// The product of a sheet's Hamiltonian with a vector: the number of its states.
pub fn export_hamiltonian_matvec(
    sheet: &[u8],
    g_squared: f64,
    electric: f64,
    magnetic: f64,
    given: bool,
    weights: &[f64],
    vector: &[f64],
    states: &mut [i32],
    res: &mut [f64],
) -> i64
    ensures { Exported (on_sheet sheet.now (λ c L. u1_product_call c L (record { g_squared = g_squared; electric = electric; magnetic = magnetic }) given weights.now vector.now states.old res.old)) result (states.new, res.new) }
{
    let weights = given.then_some(weights);
    match read_sheet(sheet) {
        Ok(s) => signed_result(hamiltonian_matvec(
            s.complex,
            s.lambda,
            coupling(g_squared, electric, magnetic),
            weights,
            vector,
            states,
            res,
        )),
        Err(refusal) => signed_refusal(refusal),
    }
}

// The square of the electric field on each edge of a sheet, expected in a state: the number of edges.
#[tactic(auto, using(crate::proofs::Small::electric_small))]
pub fn export_electric_field_sq(
    sheet: &[u8],
    amplitudes: &[f64],
    states: &mut [i32],
    res: &mut [f64],
) -> i64
    ensures { Exported (on_sheet sheet.now (λ c L. electric_call c L amplitudes.now states.old res.old)) result (states.new, res.new) }
{
    match read_sheet(sheet) {
        Ok(s) => signed_result(electric_field_sq(s.complex, s.lambda, amplitudes, states, res)),
        Err(refusal) => signed_refusal(refusal),
    }
}

// The Wilson loop along a path of a sheet, expected in a state: 0.
pub fn export_wilson_loop(
    sheet: &[u8],
    amplitudes: &[f64],
    edges: &[u8],
    directions: &[i8],
    states: &mut [i32],
    expectation: &mut f64,
) -> i64
    ensures { Exported (on_sheet sheet.now (λ c L. value_lent (wilson_call c L amplitudes.now edges.now directions.now states.old) expectation.old)) result (states.new, expectation.new) }
{
    let path = Path { edges, directions };
    match read_sheet(sheet) {
        Ok(s) => store_expectation(
            wilson_loop(s.complex, s.lambda, amplitudes, path, states),
            expectation,
        ),
        Err(refusal) => signed_refusal(refusal),
    }
}
