//! Targets: how long a cell of a chip takes, and a ledger of the cells that were charged.
//!
//! Proved: A target answers its name and the delays of its table. Retuning puts one class on a line and leaves each other
//! class, or leaves all if the table is fixed, and reports which. The ledger starts empty and gains the width of each cell
//! charged, up to 2^64 - 1. No call changes anything else. The program's two targets have the tables of
//! docs/SPECIFICATION.md.
//!
//! By: the trait `Target`, which `LinearTarget` and `ListTarget` keep; `plain`, `fixed`.
#![tactic(auto)]

mod ledger;
mod linear;
mod list;
mod place;
mod program;
mod target;

pub use linear::LinearTarget;
pub use list::ListTarget;
pub use opgen_net::{Cell, Class};
pub use program::{fixed, plain};
pub use target::Target;

#[cfg(test)]
mod tests;
