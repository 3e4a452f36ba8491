// The entries of a table: the frames in use, the table checks.
#![tactic(auto)]

pub mod check;
pub mod frames;
mod marks;
pub mod sound;
mod survey;
