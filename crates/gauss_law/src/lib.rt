// Gauss's law on a complex.
#![tactic(auto)]

pub mod spanning;
