// The walk over all states of a complex: its tables, its steps and its blocks.
#![tactic(auto)]

pub mod blocks;
pub mod row;
pub mod steps;
pub mod tables;
