// The calls on a table as a whole: Format, Check, Stretch.
#![tactic(auto)]

pub mod check;
pub mod format;
mod rows;
pub mod stretch;
