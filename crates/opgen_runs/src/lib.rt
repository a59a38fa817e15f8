//! Values of expressions over words, and runs of designs: their drivers evaluated in one order, cycle by cycle.
//!
//! Proved: The value of an expression over words, and each operation on words. A sound design has exactly one run over
//! each list of inputs of its ports' widths. An order in which the drivers of a sound design are evaluated; the answer
//! for a design of 2^32 or more ports, signals and drivers together is out of memory.
//!
//! By: `value`, `cut`, `chosen`, `evaluation_order`; the law `one_run` of `opgen_part_laws`.
#![tactic(auto)]

mod evaluate;
mod order;
mod words;

pub use evaluate::value;
pub use order::evaluation_order;
pub use words::{chosen, cut};
