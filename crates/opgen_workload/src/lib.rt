//! The filter of the command `workload`, made from a number, and how many cycles of a filter's run are good.
//!
//! Proved: The filter made from a number is a valid specification. How many cycles of a filter's run, from the latency on,
//! are good.
//!
//! By: `workload_spec`, `good_cycles`.
#![tactic(auto)]

mod filter;
mod judge;

pub use filter::workload_spec;
pub use judge::good_cycles;

#[cfg(test)]
mod tests;
