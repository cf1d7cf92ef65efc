// The calls of U(1), held against recorded answers: whether a call tells the recorded number and leaves the recorded lists.
// Functions differ in the call and in its lists, and take what was recorded of it: weights, and whether they are given, as the call takes them.
// One for several, or for both modes, would take the call as a closure over lent lists, with a contract that is longer than these bodies.
#![tactic(auto)]

pub mod matrix;
pub mod matrix_cases;
pub mod places;
pub mod products;
mod room;
pub mod state_cases;
pub mod states;
