// The Hamiltonian of the two-valued truncation of SU(2) as a dense matrix.
#![tactic(auto)]

pub mod dense;
