// The Hamiltonian of the two-valued truncation of SU(2) as row lists.
#![tactic(auto)]

pub mod build;
pub mod fill;
pub mod row;
pub mod tables;
