//! Nets whose sums are cut: a net is made anew with each sum in pieces of at most so many bits.
//!
//! Proved: The net is that of the recipe. It is valid, and the same circuit as the old one: it has the same ports, at every time
//! and for all inputs the same words at its outputs, and no way through it passes more delays. No sum in it has more bits than are
//! allowed.
//!
//! By: `cut_sums`.
#![tactic(auto)]

mod cut;
mod cutting;
mod needed;
mod renamed;
#[cfg(test)]
mod tests;
mod wires;

pub use cut::cut_sums;
