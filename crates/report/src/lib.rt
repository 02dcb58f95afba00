// The report of a guarded run, written into lent bytes. Its definitions and laws are in `secret`.
#![tactic(auto)]

mod call;
mod program;
mod records;
mod rows;
mod whole;
mod widths;

pub use call::report;
pub use program::report_bytes;
pub use widths::{INPUT_LENGTH, REPORT_LENGTH};
