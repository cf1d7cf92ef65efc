// A case of the list of answers: where its fields stand, and what they hold that goes into a call.
#![tactic(auto)]

pub mod case;
pub mod inputs;
