// Numbers and lists in bytes, low byte first, and lists held against them.
#![tactic(auto)]

pub mod entry;
pub mod list;
pub mod number;
