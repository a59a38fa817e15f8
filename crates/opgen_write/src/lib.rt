//! The writer of VHDL: from a design to its text.
//!
//! Proved: The sink takes the text of the design; after an error it has taken a prefix of that text. `Failed` is returned
//! only if the sink counted a fault, and `VecSink` never returns it. The text of every design that is sound, has allowed
//! names and a port, and is of the subset's form spells that design by the grammar.
//!
//! By: `write_design`, `text`, `VecSink`; the laws `text_spells`, `text_lengths` of `opgen_part_laws`.
#![tactic(auto)]

mod architecture;
mod entity;
mod expression;
mod page;
mod sink;
mod statement;
mod write;

pub use sink::VecSink;
pub use write::{WriteFault, text, write_design};
