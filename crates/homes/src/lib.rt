// What calls ask before they begin, the home of a copy, and Evict.
#![tactic(auto)]

pub mod admission;
pub mod evict;
pub mod holders;
pub mod home;
pub mod places;
