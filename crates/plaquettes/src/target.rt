// A list of states: how it comes about, its sizes, and a state taken out of it.
ghost use Rattle.std.specs.Prelude.{◌≡◌, ◌*◌, ◌≤◌, ℕ, length, take};
ghost use Rattle.complex.specs.Complex.{Complex};
ghost use Rattle.walker.specs.Tables.{states_of};
ghost use Rattle.enumeration.specs.Basis.{BasisOf};
ghost use Rattle.plaquettes.specs.Targets.{BasisListed};

use enumeration::basis::Basis;

// How many states a list begins with, the edges of each, the free ones of them, and the truncation.
#[derive(Clone, Copy)]
pub struct Sizes {
    pub states: usize,
    pub edges: usize,
    pub free: usize,
    pub lambda: usize,
}

// The states of a basis go to the beginning of a list.
pub fn list_states(basis: &Basis, states: &mut [i32]) -> Sizes
    requires { length (states_of basis.now.walker basis.now.lambda basis.now.blocks) * basis.now.walker.n_edges ≤ length states.old }
    ensures { (c : Complex) (L : ℕ) → BasisOf c L basis.now → BasisListed c L states.old states.new result basis.now.walker.free }
{
    Sizes {
        states: basis.write(states),
        edges: basis.walker.n_edges,
        free: basis.walker.n_free,
        lambda: basis.lambda,
    }
}

// A state goes to the front of a row, which is an array of fixed length, as the library has no heap.
pub fn copy_state(row: &mut [i32; 63], state: &[i32])
    requires { (length row.old ≡ 63) × (length state.now ≤ 63) }
    ensures { (length row.new ≡ 63) × (take (length state.now) row.new ≡ state.now) }
{
    row[..state.len()].copy_from_slice(state);
}
