//! How many guard bits an operator computes with, and how many columns a truncated product leaves out (de Dinechin and Kumm,
//! Application-Specific Arithmetic).
//!
//! Proved: The number of guard bits for n rounded terms is the least whose power of two is greater than n. The number of
//! columns left out of a product is the greatest whose bits, over all pairs of places, together weigh at most half a unit of
//! what is kept. How many bits a column has.
//!
//! By: `guard`, `drop_columns`; the law `columns_have_bits` of `opgen_part_laws`.
#![tactic(auto)]

ghost use Rattle.std.specs.Prelude.{ℕ, ◌<◌, ◌≤◌, ◌^◌};

mod columns;

pub use columns::{Cut, drop_columns};
use opgen_num::bit_length;

/// The guard bits for `n` rounded terms: the least number whose power of two is greater than `n`.
pub fn guard(n: u32) -> u32
    ensures holds { n < 2 ^ result }
    ensures least { (g : ℕ) → n < 2 ^ g → result ≤ g }
{
    bit_length(n.into())
}
