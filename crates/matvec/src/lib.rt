// The product of a matrix in row lists with a vector.
#![tactic(auto)]

pub mod product;
