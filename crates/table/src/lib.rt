// The table as words: its geometry, what its words hold, the one function that stores, the state changes; and what a
// call answers.
#![tactic(auto)]

pub mod answers;
pub mod changes;
pub mod geometry;
pub mod stores;
pub mod words;
