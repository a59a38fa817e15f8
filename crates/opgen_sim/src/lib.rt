//! The simulator: designs run cycle by cycle; and the depth of a design that only feeds forward, the most registers on a
//! way to a signal.
//!
//! Proved: A new simulator of a sound design has the registers' initial words. Each step is a cycle of the design, from the
//! registers' words before it to those after it, with the numbers passed in at the input ports and those returned at the
//! output ports. The steps of a new simulator are a run. The outputs of a design over rows of inputs are those of its one
//! run, whichever way they are computed: a cycle at a time, or in 256 streams. In a sound design of depth D, which has no
//! enable, two cycles of any runs have the same outputs if they have the same inputs in them and in the D cycles before.
//! The depth that is returned is one of the design, and at most the limit.
//!
//! By: `Sim::new`, `Sim::from_design`, `Sim::step`, `run_rows`, `port_widths`, `depth`; the laws `steps_are_runs` and
//! `outputs_depend_on_depth` of `opgen_part_laws`.
#![tactic(auto)]

mod cycle;
mod engine;
mod evaluate;
mod forward;
mod numbers;
mod ranks;
mod rows;
mod sim;
mod streams;
mod tables;
mod walker;
mod widths;

pub use forward::depth;
pub use rows::run_rows;
pub use sim::Sim;
pub use widths::port_widths;
