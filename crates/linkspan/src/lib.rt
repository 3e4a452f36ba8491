// The engine for programs in C and Rust: every call as a function of the C ABI. A lent slice is passed as a pointer
// and a length, a second result through a pointer to one word. Each function answers document 01's number and asks
// nothing of its numbers and words: what is not in order is refused.
#![tactic(auto)]

pub mod memory;
pub mod points;
pub mod recovering;
mod report;
pub mod sizes;
