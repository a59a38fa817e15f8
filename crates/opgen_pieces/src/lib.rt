//! Sums in pieces: appends the sum or the difference of two words to a net, as additions of few bits that hand on their carries.
//!
//! Proved: The nodes are those of the recipe. At every time and for all inputs the result has the sum or the difference of the
//! two words, cut to their width. Each node that is appended is one addition or subtraction, of at most as many bits as are
//! allowed. The net stays valid, keeps its inputs, outputs and the words of its nodes, and gains no delay; no way to the
//! result passes more delays than one to the two words.
//!
//! By: `add_in_pieces`.
#![tactic(auto)]

mod operand;
mod pieces;
#[cfg(test)]
mod tests;

pub use pieces::{Sum, add_in_pieces};
