// The largest sizes, and a list of edges in fixed memory.
#![tactic(auto)]

pub mod edge_list;
pub mod sizes;
