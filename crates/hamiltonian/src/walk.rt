// The plaquettes of a triangle in a dense matrix: one walk over the states finds all hits.
ghost use Rattle.std.specs.Prelude.{List, ℕ, ◌*◌, ◌^◌, ◌<◌, ◌≤◌, length};
ghost use Rattle.complex.specs.Complex.{Complex};
ghost use Rattle.hamiltonian.specs.Walk.{HitAdded, PlaquetteAdded};
ghost use Rattle.plaquettes.specs.Pairs.{MovableRows};
ghost use Rattle.plaquettes.specs.Targets.{BasisList};
ghost use Rattle.triangles.specs.Indices.{SidesOf};

use matrices::matrix::add_entry;
use plaquettes::pairs::find_pair;
use plaquettes::target::Sizes;
use triangles::Sides;

// x is added to both entries of a hit, where the target of state i is one. The place that no later target is before.
fn add_hit(h: &mut [f64], n: usize, i: usize, j: usize, from: usize, x: f64) -> usize
    requires { (n ≤ 2 ^ 20) × (n * n ≤ length h.old) × (i < n) }
    ensures { HitAdded n i j from x h.old h.new result }
{
    if n <= j {
        return from;
    }
    add_entry(h, n, i, j, x);
    add_entry(h, n, j, i, x);
    j + 1
}

// What the plaquette of a triangle adds is added to both entries of each hit. By number: a hit is an entry, and so two states by their numbers.
pub fn add_plaquette(list: &[i32], s: Sizes, sides: Sides, x: f64, h: &mut [f64])
    requires { MovableRows list.now s sides × (s.states * s.states ≤ length h.old) }
    ensures { (c : Complex) (t : ℕ) (free : List ℕ) → BasisList c list.now s free → SidesOf c t sides → PlaquetteAdded c s.lambda t s.states x h.old h.new }
{
    let n = s.states;
    let mut from = 0;
    for i in 0..n {
        let j = find_pair(list, s, sides, 1, i, from);
        from = add_hit(h, n, i, j, from, x);
    }
}
