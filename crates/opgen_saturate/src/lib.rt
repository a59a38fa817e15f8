//! Chosen widths: the step behind a net that gives its output another format, in which numbers out of range saturate or
//! wrap.
//!
//! Proved: For every two formats with widths of signals, the nodes are those of the recipe. At every time and for all inputs
//! the new output is the old one brought into the range (it saturates), or equals it modulo 2 to the power of the new width
//! (it wraps). The net stays valid, and keeps its inputs and the words of its earlier nodes. Saturation tests the bits that
//! are dropped by cells of at most six bits each; in the worked cases at most as many stand one behind the other as the
//! logarithm of the number of bits to base 6, rounded up, and one more. A number that is good for an exact value, and brought
//! into a range, is good for that value brought into it, in each mode. A number of the output's own format that is good for
//! an exact value makes a good output that wraps. The net of an operator becomes one that fits the specification.
//!
//! By: `saturate`, `wrap`, `convert_output`, `cut_output`; the laws `saturation_keeps_good` and `wrapping_keeps_good`.
#![tactic(auto)]

mod cut;
mod laws;
mod output;
mod step;
mod test;
#[cfg(test)]
mod tests;
mod tree;

pub use cut::cut_output;
pub use laws::{saturation_keeps_good, wrapping_keeps_good};
pub use output::convert_output;
pub use step::{saturate, wrap};
