// Recovery after the loss of a node, or of none.
#![tactic(auto)]

mod census;
mod marks;
mod numbering;
mod partners;
pub mod recover;
mod rolling;
mod rows;
mod scratch;
mod tallies;
