// The Kogut-Susskind Hamiltonian of U(1) as a dense matrix.
#![tactic(auto)]

pub mod dense;
pub mod walk;
