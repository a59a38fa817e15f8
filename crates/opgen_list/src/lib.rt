//! A list and a text that contracts see as plain data, for the fields of types that contracts compare.
//!
//! Proved: Each method of a list and of a text returns and changes what plain lists of items or bytes say.
//!
//! By: the clauses of `Items` and `Text`.
#![tactic(auto)]

mod items;
mod text;

pub use items::Items;
pub use text::Text;
