// The Kogut-Susskind Hamiltonian of U(1) as row lists.
#![tactic(auto)]

pub mod build;
pub mod fill;
pub mod words;
