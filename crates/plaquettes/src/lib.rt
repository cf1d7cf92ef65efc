// The plaquette of a triangle on the states: where its shift takes them. The rows of the list of states.
#![tactic(auto)]

pub mod pairs;
pub mod rows;
pub mod target;
pub mod triangle;
