//! The nets of sums of products: tables of the multiples of inputs, and products of the bits of inputs, added in one
//! bit heap (de Dinechin and Kumm, Application-Specific Arithmetic: bit heaps, and truncated multipliers).
//!
//! Proved: For every sum of products that a version accepts, with either compressor: the net is that of the recipe, of
//! which there is one, and it fits the operator, exact or not. All that is rounded or left out, in all terms together,
//! comes to less than one unit. The recipe has the fewest guard bits for which a unit for each rounded table and for
//! each row and constant that is rounded down is less than one unit of the output.
//!
//! By: `build`; the law `one_net_of_sop` of `opgen_part_laws`.
#![tactic(auto)]

mod budget;
mod fractions;
mod inputs;
mod products;
mod scaled;
mod sum;

pub use sum::build;
