//! Products of two factors in a bit heap, by the products of their bits, with the signs' bits inverted and the lowest
//! columns left out (de Dinechin and Kumm, Application-Specific Arithmetic: multiplication, and truncated multipliers).
//!
//! Proved: For all inputs of the ports' widths and at every time, the heap's sum grows by the product of the factors,
//! or falls by it, less a correction for the signs, and less at most the weight of the columns left out. Of a number
//! with itself each pair of bits is there once.
//!
//! By: `add_placed`, `add_products`, `placed_correction`, `sign_correction`.
#![tactic(auto)]

mod correction;
mod pairs;

pub use correction::{placed_correction, sign_correction};
pub use pairs::{Factor, Placing, Products, Work, add_placed, add_products};
