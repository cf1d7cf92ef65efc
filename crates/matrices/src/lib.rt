// What the matrices of both modes are made of: the coupling, the weights, the electric term, what a triangle adds, and a matrix in a list.
#![tactic(auto)]

pub mod coupling;
pub mod electric;
pub mod matrix;
pub mod terms;
pub mod weights;
