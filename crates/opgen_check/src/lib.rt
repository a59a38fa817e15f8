//! The check of a design from any source against a specification: its ports, and each row of its run, by the definition of
//! good outputs.
//!
//! Proved: `Ports` is returned exactly if a port of the design differs from the specification's at its place in name,
//! direction or width, or the numbers of ports differ. Otherwise, over the outputs of the design's run: the first row from
//! the latency on whose outputs are not good for the inputs up to LATENCY rows before, or that all are good, and how many.
//! There is at most one verdict.
//!
//! By: `check_rows`; the law `one_verdict` of `opgen_part_laws`.
#![tactic(auto)]

mod checked;
mod ports;
mod rows;

pub use checked::{CheckFault, Checked};
pub use rows::check_rows;
