// A sparse matrix as row lists: entries in any order sorted into a row, and rows written one after the other.
#![tactic(auto)]

pub mod lists;
pub mod row;
