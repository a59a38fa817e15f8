//! Designs: ports, signals and the drivers that assign them, and when a design is sound.
//!
//! Proved: A design is sound, or the first of ten rules that fails and the first place at which it fails. An order of
//! all drivers but the registers: each once, after those that it reads. A copy of an expression or a design is the same
//! expression or design. With an enable, the cycles of a run in which it is 1 are a run of the design without it.
//! Without registers, any cycles are a run.
//!
//! By: `Design::sound`, `order`; `Expr::copy`, `Design::copy`; the laws `enabled_cycles_are_runs`, `any_cycles_are_runs`.
#![tactic(auto)]

mod copies;
mod copy;
mod design;
mod expr;
mod formula;
pub mod laws;
mod order;
mod reads;
mod rules;
mod sound;
mod targets;
mod width;

pub use design::{Design, Dir, Driver, MAX_SIGNALS, Port, Signal, Target};
pub use expr::{Expr, MAX_NESTING, Op, Slice};
pub use formula::Formula;
pub use sound::{Rule, SoundFault};
