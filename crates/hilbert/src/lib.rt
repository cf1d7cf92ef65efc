// The basis as a list: the place of a configuration.
#![tactic(auto)]

pub mod index;
pub mod search;
