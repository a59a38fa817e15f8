//! The reader of the VHDL subset: from the bytes of a text to the design that it spells.
//!
//! Proved: `Ok` returns the design that the text spells; it is sound, within the limits, and its places have 32 bits. A
//! fault is the first cause against the text: a text has at most one, and none if it spells such a design. How a fault
//! prints.
//!
//! By: `read_design`, the `Display` of `ReadFault`; the law `one_cause` of `opgen_part_laws`.
#![tactic(auto)]

mod declared;
mod draft;
mod expression;
mod fault;
mod name;
mod pieces;
mod read;
mod refusal;
mod required;
mod statement;
mod take;
mod unit;

pub use fault::ReadFault;
pub use read::{MAX_PORTS, MAX_TEXT_LEN, read_design};
