//! Designs run cycle by cycle, 256 streams at a time.
//!
//! Proved: New lanes of a sound design have the registers' initial words in each stream. Each step is a cycle of the design
//! in each of the 256 streams, by that stream's own bit of an enable. The steps of new lanes are a run in each stream.
//!
//! By: `Lanes::new`, `Lanes::from_design`, `Lanes::step`; the law `lane_steps_are_runs` of `opgen_part_laws`.
#![tactic(auto)]

mod bank;
mod drivers;
mod evaluate;
mod lanes;
mod ports;
mod registers;
mod tables;
mod words;

pub use lanes::Lanes;
