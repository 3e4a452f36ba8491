// Tests, sums, counts and searches over the numbers below a bound, as laws; a choice without a branch; the nodes in
// cyclic order; a word as a mask.
#![tactic(auto)]

pub mod bits;
pub mod choice;
pub mod cyclic;
