//! Compressor trees: a bit heap is added by full adders, half adders and one sum of two words.
//!
//! Proved: The nodes of a compressor tree are exactly those of the recipe. For all inputs of the ports' widths and at every
//! time, the returned node has the heap's sum. The net's inputs and outputs stay, its earlier nodes come first among the new
//! ones, and they keep their flow.
//!
//! By: `compress`.
#![tactic(auto)]

mod adders;
mod passes;
mod queue;
mod rows;
mod tree;

pub use tree::compress;
