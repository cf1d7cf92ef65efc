// The shift of a triangle: 1, -1 and 1 are added on its three edges. A row is an array of fixed length, as the library has no heap.
ghost use Rattle.std.specs.Prelude.{◌≡◌, ◌&&◌, ◌^◌, ◌<◌, ◌≤◌, pos, negsuc, nat_abs, ◌+ℤ◌, get_or, length};
ghost use Rattle.complex.specs.Complex.{complex_of};
ghost use Rattle.gauss_law.specs.Shifts.{shifted};
ghost use Rattle.gauss_law.specs.Gauss.{within};
ghost use Rattle.mathematics.specs.Calls.{Answered};
ghost use Rattle.answers.specs.Refusal.{answer_of};
ghost use Rattle.plaquettes.specs.Triangle.{triangle_call, Shiftable};
ghost use Rattle.plaquettes.specs.Demand.{ShiftDemand};

use answers::refusal::Refusal;
use complex::SimplicialComplex;
use cursor::tables::state_at;
use enumeration::basis::Basis;
use hilbert::index::list_and_seek;
use triangles::{Sides, triangle_sides};
use walker::blocks::within;

// 1 or -1 is added on one edge of a row.
#[tactic(auto, unfolding(gauss_law::specs::Shifts::shifted, gauss_law::specs::Shifts::raised))]
fn move_edge(row: &mut [i32; 63], edge: usize, by: i32)
    requires { (length row.old ≡ 63) × (edge < 63) × (nat_abs (get_or row.old edge (pos 0) +ℤ by) ≤ 2 ^ 20) }
    ensures { row.new ≡ shifted row.old edge by }
{
    row[edge] += by;
}

// 1, -1 and 1 are added on three edges of a row.
pub fn shift_row(row: &mut [i32; 63], sides: Sides)
    requires { Shiftable row.old sides }
    ensures { row.new ≡ shifted (shifted (shifted row.old sides.first (pos 1)) sides.second (negsuc 0)) sides.third (pos 1) }
{
    move_edge(row, sides.first, 1);
    move_edge(row, sides.second, -1);
    move_edge(row, sides.third, 1);
}

// Whether the values on three edges are within -lambda to lambda.
#[tactic(auto, unfolding(gauss_law::specs::Gauss::within))]
pub fn three_within(row: &[i32; 63], sides: Sides, lambda: usize) -> bool
    requires { (length row.now ≡ 63) × (lambda ≤ 1000) × (sides.first < 63) × (sides.second < 63) × (sides.third < 63) }
    ensures { result ≡ (within lambda (get_or row.now sides.first (pos 0)) && (within lambda (get_or row.now sides.second (pos 0)) && within lambda (get_or row.now sides.third (pos 0)))) }
{
    within(row[sides.first], lambda)
        & (within(row[sides.second], lambda) & within(row[sides.third], lambda))
}

// The place of the state that a triangle's shift makes of the state at a place. The basis goes to the beginning of the list. All is
// judged first: the state is found by the walk, since the list stays as it is where the shift leaves the band.
pub fn apply_triangle_shift(
    c: SimplicialComplex,
    lambda: usize,
    triangle: usize,
    state: usize,
    states: &mut [i32],
) -> Result<usize, Refusal>
    ensures answered { Answered (triangle_call (complex_of c) lambda triangle state states.old) (answer_of result) states.new }
    ensures shift_demand { ShiftDemand (complex_of c) lambda triangle state states.old result }
{
    let basis = Basis::prepare(c, lambda)?;
    let n = basis.count();
    if (c.n_triangles <= triangle) | (n <= state) {
        return Err(Refusal::OutOfRange);
    }
    let m = c.n_edges;
    if states.len() < n * m {
        return Err(Refusal::NoRoom);
    }
    let sides = triangle_sides(c, triangle);
    let mut row = state_at(&basis.walker, lambda, basis.blocks, state);
    shift_row(&mut row, sides);
    if !three_within(&row, sides, lambda) {
        return Err(Refusal::OutOfBand);
    }
    Ok(list_and_seek(&basis, &row[..m], states))
}
