// Where the flip of a triangle takes the states.
ghost use Rattle.std.specs.Prelude.{◌≡◌, ℕ, ◌<◌};
ghost use Rattle.complex.specs.Complex.{Complex};
ghost use Rattle.triangles.specs.Indices.{SidesOf};
ghost use Rattle.su2_even_sets.specs.EvenSets.{mask_place};
ghost use Rattle.su2_masks.specs.Place.{LoopsOf, Readable};
ghost use Rattle.su2_masks.specs.Flips.{triangle_mask};

use crate::place::closing_bits;
use su2_even_sets::Forest;
use triangles::Sides;

// The place of a triangle's three edges in the list of states. The flip takes state i to i xor this number. The closing edges are taken out first: a slice
// of the record's own would have a loop over triangles copy the whole record at each.
pub fn triangle_place(f: Forest, sides: Sides) -> usize
    requires { Readable f × (sides.first < 64) × (sides.second < 64) × (sides.third < 64) }
    ensures { (c : Complex) (t : ℕ) → LoopsOf c f → SidesOf c t sides → result ≡ mask_place c (triangle_mask c t) }
{
    let closing = f.closing;
    closing_bits(
        &closing[..f.count],
        (1 << sides.first) ^ (1 << sides.second) ^ (1 << sides.third),
    )
}
