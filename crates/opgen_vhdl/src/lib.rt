//! The VHDL subset: its tokens, its grammar and the texts of designs.
//!
//! Proved: A text has one list of tokens or one offset at which no token starts, never both. A text spells at most one
//! design. Its pieces have one reading, or one first piece that does not fit its place.
//!
//! By: the laws `one_cut`, `longest_token`, `token_spans`, `one_reading_of_text` of `opgen_part_laws`.
#![tactic(auto)]

mod kind;
mod place;

pub use kind::{Front, Token, TokenKind};
pub use place::Place;
