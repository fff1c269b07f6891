// The lines of stored cases: a data file with them, their fields, the slices that a case is called with, and the report. For the
// programs that replay the cases.
#![tactic(auto)]

pub mod file;
pub mod guarded;
pub mod read;
pub mod report;
