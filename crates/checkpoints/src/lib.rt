// Open, Create, Commit, Abandon: the calls of checkpoints; and how long a Commit will be.
#![tactic(auto)]

pub mod abandon;
pub mod checkpoint;
pub mod commit;
pub mod create;
pub mod length;
pub mod open;
