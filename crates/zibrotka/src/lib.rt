// The calls for C and other languages: numbers and slices in, one signed number out, the value or minus the refusal. Weights are a flag and a
// list, and each list is a parameter of its own: that is the C interface.
#![tactic(auto)]

ghost use Rattle.std.specs.Prelude.{◌≡◌};
ghost use Rattle.mathematics.specs.Calls.{none_lent};
ghost use Rattle.triangles.specs.Indices.{indices_call};
ghost use Rattle.pentachora.specs.Pentachora.{pentachora_call};
ghost use Rattle.sheet.specs.Sheet.{reading_call};
ghost use Rattle.making.specs.Making.{making_call};
ghost use Rattle.gauss_law.specs.Spanning.{tree_call};
ghost use Rattle.loops.specs.Loops.{loops_call, su2_loops_call};
ghost use Rattle.law_check.specs.Law.{law_call};
ghost use Rattle.refusals.specs.Sentences.{text_call};
ghost use Rattle.enumeration.specs.Enumeration.{enumerated_call, counted_call};
ghost use Rattle.hilbert.specs.Basis.{Unlisted};
ghost use Rattle.hilbert.specs.Index.{index_call};
ghost use Rattle.shifts.specs.Shift.{shift_call, ShiftUnlisted};
ghost use Rattle.matrices.specs.Coupling.{coupling_call, u1_params, su2_params};
ghost use Rattle.plaquettes.specs.Triangle.{triangle_call};
ghost use Rattle.hamiltonian.specs.Dense.{u1_dense_call};
ghost use Rattle.su2_masks.specs.Basis.{su2_basis_call, su2_counted_call};
ghost use Rattle.su2_quantum.specs.Dense.{su2_dense_call};
ghost use Rattle.matvec.specs.Product.{product_call};
ghost use Rattle.su2_rows.specs.Rows.{su2_rows_call};
ghost use Rattle.su2_entries.specs.Entries.{su2_entries_call};
ghost use Rattle.csr.specs.Csr.{csr_call};
ghost use Rattle.su2_products.specs.Product.{su2_product_call};
ghost use Rattle.su2_loops.specs.Loop.{su2_loop_call, su2_passes_call};
ghost use Rattle.entries.specs.Entries.{entries_call};
ghost use Rattle.lanczos.specs.Matvec.{u1_product_call};
ghost use Rattle.electric.specs.Electric.{electric_call};
ghost use Rattle.wilson.specs.Wilson.{wilson_call};
ghost use Rattle.exports.specs.Exports.{complex_in, lambda_in, on_sheet, none_found, found_lent, stored, zero_told, value_lent, second_lent, in_place, three_floats, Exported};
ghost use Rattle.exports.specs.Findings.{law_numbers, FindingExported};
ghost use Rattle.complex_exports.specs.Parts.{sheet_parts};

use complex_exports::{
    export_from_pentachorons, export_fundamental_loops, export_make_sheet, export_read_sheet,
    export_refusal_text, export_spanning_tree, export_su2_fundamental_loops,
    export_tri_edge_indices,
};
use rows_exports::export_matvec;
use su2_exports::{
    export_build_csr_su2, export_build_su2_hamiltonian, export_su2_basis, export_su2_count_entries,
    export_su2_count_states, export_su2_hamiltonian_matvec, export_su2_params,
    export_su2_wilson_loop, export_su2_wilson_passes,
};
use u1_exports::{
    export_apply_shift, export_apply_shift_finding, export_apply_triangle_shift, export_build_csr,
    export_build_hamiltonian, export_check_gauss_law, export_check_gauss_law_finding,
    export_config_to_index, export_config_to_index_finding, export_count_entries,
    export_count_states, export_electric_field_sq, export_enumerate_gauge_invariant,
    export_hamiltonian_matvec, export_u1_params, export_wilson_loop,
};

// The sheet of flat pairs and triples: the number of its bytes.
#[unsafe(no_mangle)]
pub extern "C" fn zibrotka_make_sheet(
    n_vertices: u64,
    edges: &[u8],
    triangles: &[u8],
    lambda: u64,
    sheet: &mut [u8],
) -> i64
    ensures { Exported (making_call n_vertices edges.now triangles.now lambda sheet.old) result sheet.new }
{
    export_make_sheet(n_vertices, edges, triangles, lambda, sheet)
}

// What a sheet holds: 0. Entries of the lists beyond its edges and triangles stay.
#[unsafe(no_mangle)]
pub extern "C" fn zibrotka_read_sheet(
    sheet: &[u8],
    n_vertices: &mut u64,
    n_edges: &mut u64,
    n_triangles: &mut u64,
    lambda: &mut u64,
    edges: &mut [u8; 126],
    triangles: &mut [u8; 768],
) -> i64
    ensures { Exported (stored (reading_call sheet.now) sheet_parts (n_vertices.old, n_edges.old, n_triangles.old, lambda.old, edges.old, triangles.old)) result (n_vertices.new, n_edges.new, n_triangles.new, lambda.new, edges.new, triangles.new) }
{
    export_read_sheet(
        sheet,
        n_vertices,
        n_edges,
        n_triangles,
        lambda,
        edges,
        triangles,
    )
}

// The edge numbers of a triangle of a sheet: 0.
#[unsafe(no_mangle)]
pub extern "C" fn zibrotka_tri_edge_indices(
    sheet: &[u8],
    triangle: u64,
    indices: &mut [u64; 3],
) -> i64
    ensures { Exported (on_sheet sheet.now (λ c L. stored (indices_call c triangle) in_place indices.old)) result indices.new }
{
    export_tri_edge_indices(sheet, triangle, indices)
}

// The edges and triangles of pentachora: the number of edges.
#[unsafe(no_mangle)]
pub extern "C" fn zibrotka_from_pentachorons(
    n_vertices: u64,
    pentachora: &[u64],
    edges: &mut [u8],
    triangles: &mut [u8],
    n_triangles: &mut u64,
) -> i64
    ensures { Exported (second_lent (pentachora_call n_vertices pentachora.now edges.old triangles.old) n_triangles.old) result (edges.new, triangles.new, n_triangles.new) }
{
    export_from_pentachorons(n_vertices, pentachora, edges, triangles, n_triangles)
}

// The tree edges and the free edges of a sheet's complex: the number of free edges.
#[unsafe(no_mangle)]
pub extern "C" fn zibrotka_spanning_tree(sheet: &[u8], tree: &mut [u32], free: &mut [u32]) -> i64
    ensures { Exported (on_sheet sheet.now (λ c L. tree_call c tree.old free.old)) result (tree.new, free.new) }
{
    export_spanning_tree(sheet, tree, free)
}

// The fundamental loops of a sheet's complex: how many there are.
#[unsafe(no_mangle)]
pub extern "C" fn zibrotka_fundamental_loops(
    sheet: &[u8],
    starts: &mut [u32],
    edges: &mut [u8],
    directions: &mut [i8],
) -> i64
    ensures { Exported (on_sheet sheet.now (λ c L. loops_call c starts.old edges.old directions.old)) result (starts.new, edges.new, directions.new) }
{
    export_fundamental_loops(sheet, starts, edges, directions)
}

// The same without directions.
#[unsafe(no_mangle)]
pub extern "C" fn zibrotka_su2_fundamental_loops(
    sheet: &[u8],
    starts: &mut [u32],
    edges: &mut [u8],
) -> i64
    ensures { Exported (on_sheet sheet.now (λ c L. su2_loops_call c starts.old edges.old)) result (starts.new, edges.new) }
{
    export_su2_fundamental_loops(sheet, starts, edges)
}

// Whether a configuration obeys Gauss's law on a sheet's complex: 1 or 0.
#[unsafe(no_mangle)]
pub extern "C" fn zibrotka_check_gauss_law(sheet: &[u8], configuration: &[i32]) -> i64
    ensures { Exported (on_sheet sheet.now (λ c L. none_found (law_call c configuration.now))) result none_lent }
{
    export_check_gauss_law(sheet, configuration)
}

// The same, and the lowest vertex that breaks the law, with its excess.
#[unsafe(no_mangle)]
pub extern "C" fn zibrotka_check_gauss_law_finding(
    sheet: &[u8],
    configuration: &[i32],
    vertex: &mut u64,
    excess: &mut i64,
) -> i64
    ensures { Exported (on_sheet sheet.now (λ c L. found_lent (law_call c configuration.now) law_numbers (vertex.old, excess.old))) result (vertex.new, excess.new) }
{
    export_check_gauss_law_finding(sheet, configuration, vertex, excess)
}

// All states of a sheet: their number.
#[unsafe(no_mangle)]
pub extern "C" fn zibrotka_enumerate_gauge_invariant(sheet: &[u8], states: &mut [i32]) -> i64
    ensures { Exported (on_sheet sheet.now (λ c L. enumerated_call c L states.old)) result states.new }
{
    export_enumerate_gauge_invariant(sheet, states)
}

// The place of a configuration among the states of a sheet.
#[unsafe(no_mangle)]
pub extern "C" fn zibrotka_config_to_index(
    sheet: &[u8],
    configuration: &[i32],
    states: &mut [i32],
) -> i64
    ensures { Exported (on_sheet sheet.now (λ c L. index_call c L configuration.now states.old)) result states.new }
{
    export_config_to_index(sheet, configuration, states)
}

// The same, and why the configuration is not in the basis, where it is not.
#[unsafe(no_mangle)]
pub extern "C" fn zibrotka_config_to_index_finding(
    sheet: &[u8],
    configuration: &[i32],
    states: &mut [i32],
    vertex: &mut u64,
    excess: &mut i64,
    edge: &mut u64,
) -> i64
    ensures { FindingExported (on_sheet sheet.now (λ c L. index_call c L configuration.now states.old)) (Unlisted (complex_in sheet.now) (lambda_in sheet.now) configuration.now) (vertex.old, excess.old, edge.old) result states.new (vertex.new, excess.new, edge.new) }
{
    export_config_to_index_finding(sheet, configuration, states, vertex, excess, edge)
}

// The place of a configuration with a delta added on one edge.
#[unsafe(no_mangle)]
pub extern "C" fn zibrotka_apply_shift(
    sheet: &[u8],
    configuration: &[i32],
    edge: u64,
    delta: i32,
    states: &mut [i32],
    res: &mut [i32],
) -> i64
    ensures { Exported (on_sheet sheet.now (λ c L. shift_call c L configuration.now edge delta states.old res.old)) result (states.new, res.new) }
{
    export_apply_shift(sheet, configuration, edge, delta, states, res)
}

// The same, and why the shifted configuration is not in the basis, where it is not: `shifted` is the edge that is shifted, `edge` one that is found.
#[unsafe(no_mangle)]
pub extern "C" fn zibrotka_apply_shift_finding(
    sheet: &[u8],
    configuration: &[i32],
    shifted: u64,
    delta: i32,
    states: &mut [i32],
    res: &mut [i32],
    vertex: &mut u64,
    excess: &mut i64,
    edge: &mut u64,
) -> i64
    ensures { FindingExported (on_sheet sheet.now (λ c L. shift_call c L configuration.now shifted delta states.old res.old)) (ShiftUnlisted (complex_in sheet.now) (lambda_in sheet.now) configuration.now shifted delta) (vertex.old, excess.old, edge.old) result (states.new, res.new) (vertex.new, excess.new, edge.new) }
{
    export_apply_shift_finding(
        sheet,
        configuration,
        shifted,
        delta,
        states,
        res,
        vertex,
        excess,
        edge,
    )
}

// The place of the state that a triangle's shift makes of a sheet's state at a place.
#[unsafe(no_mangle)]
pub extern "C" fn zibrotka_apply_triangle_shift(
    sheet: &[u8],
    triangle: u64,
    state: u64,
    states: &mut [i32],
) -> i64
    ensures { Exported (on_sheet sheet.now (λ c L. triangle_call c L triangle state states.old)) result states.new }
{
    export_apply_triangle_shift(sheet, triangle, state, states)
}

// All even edge sets of a sheet: their number.
#[unsafe(no_mangle)]
pub extern "C" fn zibrotka_su2_basis(sheet: &[u8], states: &mut [u64]) -> i64
    ensures { Exported (on_sheet sheet.now (λ c L. su2_basis_call c states.old)) result states.new }
{
    export_su2_basis(sheet, states)
}

// g² and the factors of U(1): 0.
#[unsafe(no_mangle)]
pub extern "C" fn zibrotka_u1_params(g_squared: f64, params: &mut [f64; 3]) -> i64
    ensures { Exported (stored (coupling_call g_squared (u1_params g_squared)) three_floats params.old) result params.new }
{
    export_u1_params(g_squared, params)
}

// g² and the factors of the two-valued mode: 0.
#[unsafe(no_mangle)]
pub extern "C" fn zibrotka_su2_params(g_squared: f64, params: &mut [f64; 3]) -> i64
    ensures { Exported (stored (coupling_call g_squared (su2_params g_squared)) three_floats params.old) result params.new }
{
    export_su2_params(g_squared, params)
}

// The dense matrix of a sheet: the number of its states.
#[unsafe(no_mangle)]
pub extern "C" fn zibrotka_build_hamiltonian(
    sheet: &[u8],
    g_squared: f64,
    electric: f64,
    magnetic: f64,
    given: bool,
    weights: &[f64],
    states: &mut [i32],
    res: &mut [f64],
) -> i64
    ensures { Exported (on_sheet sheet.now (λ c L. u1_dense_call c L (record { g_squared = g_squared; electric = electric; magnetic = magnetic }) given weights.now states.old res.old)) result (states.new, res.new) }
{
    export_build_hamiltonian(
        sheet, g_squared, electric, magnetic, given, weights, states, res,
    )
}

// The dense matrix of a sheet in the two-valued mode: the number of its states.
#[unsafe(no_mangle)]
pub extern "C" fn zibrotka_build_su2_hamiltonian(
    sheet: &[u8],
    g_squared: f64,
    electric: f64,
    magnetic: f64,
    given: bool,
    weights: &[f64],
    states: &mut [u64],
    res: &mut [f64],
) -> i64
    ensures { Exported (on_sheet sheet.now (λ c L. su2_dense_call c (record { g_squared = g_squared; electric = electric; magnetic = magnetic }) given weights.now states.old res.old)) result (states.new, res.new) }
{
    export_build_su2_hamiltonian(
        sheet, g_squared, electric, magnetic, given, weights, states, res,
    )
}

// The matrix of a sheet as row lists: the number of its entries.
#[unsafe(no_mangle)]
pub extern "C" fn zibrotka_build_csr(
    sheet: &[u8],
    g_squared: f64,
    electric: f64,
    magnetic: f64,
    given: bool,
    weights: &[f64],
    states: &mut [i32],
    starts: &mut [u32],
    columns: &mut [u32],
    values: &mut [f64],
) -> i64
    ensures { Exported (on_sheet sheet.now (λ c L. csr_call c L (record { g_squared = g_squared; electric = electric; magnetic = magnetic }) given weights.now states.old starts.old columns.old values.old)) result (states.new, starts.new, columns.new, values.new) }
{
    export_build_csr(
        sheet, g_squared, electric, magnetic, given, weights, states, starts, columns, values,
    )
}

// The matrix of a sheet in the two-valued mode as row lists: the number of its entries.
#[unsafe(no_mangle)]
pub extern "C" fn zibrotka_build_csr_su2(
    sheet: &[u8],
    g_squared: f64,
    electric: f64,
    magnetic: f64,
    given: bool,
    weights: &[f64],
    states: &mut [u64],
    starts: &mut [u32],
    columns: &mut [u32],
    values: &mut [f64],
) -> i64
    ensures { Exported (on_sheet sheet.now (λ c L. su2_rows_call c (record { g_squared = g_squared; electric = electric; magnetic = magnetic }) given weights.now states.old starts.old columns.old values.old)) result (states.new, starts.new, columns.new, values.new) }
{
    export_build_csr_su2(
        sheet, g_squared, electric, magnetic, given, weights, states, starts, columns, values,
    )
}

// The product of row lists with a vector: 0.
#[unsafe(no_mangle)]
pub extern "C" fn zibrotka_matvec(
    starts: &[u32],
    columns: &[u32],
    values: &[f64],
    vector: &[f64],
    res: &mut [f64],
) -> i64
    ensures { Exported (zero_told (product_call starts.now columns.now values.now vector.now res.old)) result res.new }
{
    export_matvec(starts, columns, values, vector, res)
}

// How many states a sheet has.
#[unsafe(no_mangle)]
pub extern "C" fn zibrotka_count_states(sheet: &[u8]) -> i64
    ensures { Exported (on_sheet sheet.now (λ c L. counted_call c L)) result none_lent }
{
    export_count_states(sheet)
}

// How many even edge sets a sheet has.
#[unsafe(no_mangle)]
pub extern "C" fn zibrotka_su2_count_states(sheet: &[u8]) -> i64
    ensures { Exported (on_sheet sheet.now (λ c L. su2_counted_call c)) result none_lent }
{
    export_su2_count_states(sheet)
}

// How many entries the row lists of a sheet have.
#[unsafe(no_mangle)]
pub extern "C" fn zibrotka_count_entries(sheet: &[u8]) -> i64
    ensures { Exported (on_sheet sheet.now (λ c L. entries_call c L)) result none_lent }
{
    export_count_entries(sheet)
}

// The product of a sheet's Hamiltonian with a vector: the number of its states.
#[unsafe(no_mangle)]
pub extern "C" fn zibrotka_hamiltonian_matvec(
    sheet: &[u8],
    g_squared: f64,
    electric: f64,
    magnetic: f64,
    given: bool,
    weights: &[f64],
    vector: &[f64],
    states: &mut [i32],
    res: &mut [f64],
) -> i64
    ensures { Exported (on_sheet sheet.now (λ c L. u1_product_call c L (record { g_squared = g_squared; electric = electric; magnetic = magnetic }) given weights.now vector.now states.old res.old)) result (states.new, res.new) }
{
    export_hamiltonian_matvec(
        sheet, g_squared, electric, magnetic, given, weights, vector, states, res,
    )
}

// The square of the electric field on each edge of a sheet, expected in a state: the number of edges.
#[unsafe(no_mangle)]
pub extern "C" fn zibrotka_electric_field_sq(
    sheet: &[u8],
    amplitudes: &[f64],
    states: &mut [i32],
    res: &mut [f64],
) -> i64
    ensures { Exported (on_sheet sheet.now (λ c L. electric_call c L amplitudes.now states.old res.old)) result (states.new, res.new) }
{
    export_electric_field_sq(sheet, amplitudes, states, res)
}

// The Wilson loop along a path of a sheet, expected in a state: 0.
#[unsafe(no_mangle)]
pub extern "C" fn zibrotka_wilson_loop(
    sheet: &[u8],
    amplitudes: &[f64],
    edges: &[u8],
    directions: &[i8],
    states: &mut [i32],
    expectation: &mut f64,
) -> i64
    ensures { Exported (on_sheet sheet.now (λ c L. value_lent (wilson_call c L amplitudes.now edges.now directions.now states.old) expectation.old)) result (states.new, expectation.new) }
{
    export_wilson_loop(sheet, amplitudes, edges, directions, states, expectation)
}

// How many entries the row lists of a sheet have in the two-valued mode.
#[unsafe(no_mangle)]
pub extern "C" fn zibrotka_su2_count_entries(sheet: &[u8]) -> i64
    ensures { Exported (on_sheet sheet.now (λ c L. su2_entries_call c)) result none_lent }
{
    export_su2_count_entries(sheet)
}

// The product of a sheet's matrix in the two-valued mode with a vector: the number of its states.
#[unsafe(no_mangle)]
pub extern "C" fn zibrotka_su2_hamiltonian_matvec(
    sheet: &[u8],
    g_squared: f64,
    electric: f64,
    magnetic: f64,
    given: bool,
    weights: &[f64],
    vector: &[f64],
    states: &mut [u64],
    res: &mut [f64],
) -> i64
    ensures { Exported (on_sheet sheet.now (λ c L. su2_product_call c (record { g_squared = g_squared; electric = electric; magnetic = magnetic }) given weights.now vector.now states.old res.old)) result (states.new, res.new) }
{
    export_su2_hamiltonian_matvec(
        sheet, g_squared, electric, magnetic, given, weights, vector, states, res,
    )
}

// The expectation of a path's loop on a sheet in the two-valued mode, by the set of its edges, goes to a float: 0.
#[unsafe(no_mangle)]
pub extern "C" fn zibrotka_su2_wilson_loop(
    sheet: &[u8],
    vector: &[f64],
    path: &[u8],
    states: &mut [u64],
    expectation: &mut f64,
) -> i64
    ensures { Exported (on_sheet sheet.now (λ c L. value_lent (su2_loop_call c vector.now path.now states.old) expectation.old)) result (states.new, expectation.new) }
{
    export_su2_wilson_loop(sheet, vector, path, states, expectation)
}

// The same by the path's passes modulo two: 0.
#[unsafe(no_mangle)]
pub extern "C" fn zibrotka_su2_wilson_passes(
    sheet: &[u8],
    vector: &[f64],
    path: &[u8],
    states: &mut [u64],
    expectation: &mut f64,
) -> i64
    ensures { Exported (on_sheet sheet.now (λ c L. value_lent (su2_passes_call c vector.now path.now states.old) expectation.old)) result (states.new, expectation.new) }
{
    export_su2_wilson_passes(sheet, vector, path, states, expectation)
}

// The sentence of a refusal: the number of its bytes.
#[unsafe(no_mangle)]
pub extern "C" fn zibrotka_refusal_text(number: u64, text: &mut [u8]) -> i64
    ensures { Exported (text_call number text.old) result text.new }
{
    export_refusal_text(number, text)
}

// The version of the library as one number, 10000 times the first part, plus 100 times the second, plus the third: 1.0.0.
#[unsafe(no_mangle)]
pub extern "C" fn zibrotka_release() -> u64
    ensures { result ≡ 10000 }
{
    10000
}
