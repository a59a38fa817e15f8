//! The report of a planned operator.
//!
//! Proved: The text of the report, byte for byte.
//!
//! By: `report_text`.
#![tactic(auto)]

mod parts;
mod report;

pub use opgen_pipe::Planned;
pub use report::report_text;
