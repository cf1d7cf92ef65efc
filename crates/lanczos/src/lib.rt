// The product of the Kogut-Susskind Hamiltonian of U(1) with a vector, without the matrix.
#![tactic(auto)]

pub mod matvec;
pub mod state_runs;
pub mod walk;
