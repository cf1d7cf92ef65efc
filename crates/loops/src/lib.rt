// The paths in the spanning tree of a complex, and its fundamental loops.
#![tactic(auto)]

pub mod climbing;
pub mod fundamental;
