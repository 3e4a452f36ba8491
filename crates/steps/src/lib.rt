// The program quay, but for reading its file and writing its lines: a record to a step, a step served, its line, and
// a run over records.
#![tactic(auto)]

pub mod decode;
pub mod lines;
pub mod records;
pub mod run;
pub mod serve;
