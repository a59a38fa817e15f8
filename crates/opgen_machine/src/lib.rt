//! Machines: designs of words of at most 64 bits as flat lists of steps over one memory of numbers.
//!
//! Proved: Each step appends one number to those of the memory and changes none of them. The steps of an expression leave
//! its value, computed from the words in the memory. A machine of a sound design, whose signals and ports have at most 64
//! bits and whose tables have addresses of at most 32, begins with the initial words of its registers, and each of its steps
//! is a cycle of the design.
//!
//! By: `Machine::new`, `Machine::step`, and inside the crate `run`, `emit`, `constant`, `name`, `port`, `choose`, `copy`,
//! `look_up`.
#![tactic(auto)]

mod drivers;
mod expression;
mod layout;
mod machine;
mod program;
mod registers;
mod running;
mod step;
mod tables;

pub use machine::Machine;
pub use program::Program;
pub use registers::Move;
pub use step::{Spot, Step};
pub use tables::is_flat;
