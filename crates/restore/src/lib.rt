// A call as a value, and demand 3 carried out.
#![tactic(auto)]

pub mod call;
pub mod operations;
pub mod rehearse;
