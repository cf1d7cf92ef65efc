// What all rows need of each triangle, found once.
ghost use Rattle.std.specs.Prelude.{◌≡◌, ◌≤◌, length};
ghost use Rattle.complex.specs.Complex.{complex_of};
ghost use Rattle.matrices.specs.Weights.{weight, Weighed, is_given, given_list};
ghost use Rattle.su2_masks.specs.Place.{FewLoops};
ghost use Rattle.su2_rows.specs.Rows.{Tables};

use complex::SimplicialComplex;
use matrices::coupling::KSParams;
use matrices::weights::weight_at;
use numbers::sizes::MOST_TRIANGLES;
use su2_even_sets::Forest;
use su2_masks::flip::triangle_place;
use triangles::{all_sides, sides_at};

// Of each triangle of an accepted record the place of its edges, and its magnetic factor × weight: they are its entry in row 0. Two lists begin with
// them: they are two, as flip_row takes them. By number: triangle t has its sides, its weight and its place in both lists.
pub fn write_tables(
    places: &mut [u32],
    terms: &mut [f64],
    c: SimplicialComplex,
    f: Forest,
    p: KSParams,
    weights: Option<&[f64]>,
)
    requires { FewLoops (complex_of c) f × Weighed (length (complex_of c).triangles) (is_given weights) (given_list weights) × (length (complex_of c).triangles ≤ length places.old) × (length (complex_of c).triangles ≤ length terms.old) }
    ensures { Tables (complex_of c) p (weight (is_given weights.entry) (given_list weights.entry)) (length (complex_of c).triangles) places.new terms.new }
{
    let all = all_sides(c);
    for t in 0..c.n_triangles {
        let place = triangle_place(f, sides_at(&all, t));
        places[t] = place as u32;
        terms[t] = p.magnetic * weight_at(weights, t);
    }
}

// These tables as one value. There is no heap: both have room for the most triangles, and the count says how many there are.
#[derive(Drop)]
pub struct Flips {
    pub places: [u32; MOST_TRIANGLES],
    pub terms: [f64; MOST_TRIANGLES],
    pub count: usize,
}

impl Flips {
    // Those of an accepted record. They take 3 KB: this is inlined, and so they are filled where the caller has them, and not moved there.
    #[inline(always)]
    pub fn of(c: SimplicialComplex, f: Forest, p: KSParams, weights: Option<&[f64]>) -> Flips
        requires { FewLoops (complex_of c) f × Weighed (length (complex_of c).triangles) (is_given weights) (given_list weights) }
        ensures { Tables (complex_of c) p (weight (is_given weights.entry) (given_list weights.entry)) (length (complex_of c).triangles) result.places result.terms × (result.count ≡ length (complex_of c).triangles) }
    {
        let mut flips = Flips {
            places: [0; MOST_TRIANGLES],
            terms: [0.0; MOST_TRIANGLES],
            count: c.n_triangles,
        };
        write_tables(&mut flips.places, &mut flips.terms, c, f, p, weights);
        flips
    }
}
