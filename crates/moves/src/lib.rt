// The moves of all triangles on the states: where they take the state of a row, found by numbers that rise with the states.
#![tactic(auto)]

pub mod number;
pub mod row;
pub mod seek;
pub mod tables;
