// Read and Write: the calls of running programs.
#![tactic(auto)]

pub mod read;
pub mod transitions;
pub mod write;
