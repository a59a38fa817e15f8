//! Larger counters for bit heaps: a table counts six bits and returns three (de Dinechin and Kumm, Application-Specific
//! Arithmetic: generalized parallel counters).
//!
//! Proved: The counters of a heap are exactly those of the rule, and the net gains their words and tables alone. For all
//! inputs of the ports' widths and at every time, the returned heap has the sum, the width and the constant of the heap
//! passed in. Earlier nodes keep their flow. If counters are not asked for, net and heap stay as they are.
//!
//! By: `count`, `count_if`.
#![tactic(auto)]

mod columns;
mod counter;
mod heaps;
mod rows;

pub use heaps::{count, count_if};
