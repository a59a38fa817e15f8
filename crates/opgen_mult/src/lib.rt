//! The nets of products: the factors' bits are multiplied in pairs and added in a bit heap (de Dinechin and Kumm,
//! Application-Specific Arithmetic: multiplication, and truncated multipliers).
//!
//! Proved: For every product that a version accepts, with either compressor: the net is that of the recipe, of which there
//! is one, and it fits the operator, signed or not, exact or truncated, at every shift.
//!
//! By: `build`; the law `one_net_of_product` of `opgen_part_laws`.
#![tactic(auto)]

mod factors;
mod multiplier;
mod output;
mod places;

pub use multiplier::build;
