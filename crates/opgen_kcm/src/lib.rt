//! Constant multipliers by tables, as Chapman's: for each six bits of the input, a table of the multiples of a fraction (de
//! Dinechin and Kumm, Application-Specific Arithmetic).
//!
//! Proved: The tables of a coefficient are those of the recipe. If the heap's bits are in the net, the heap's sum grows by
//! the coefficient times the input, modulo 2 to the power of its width. The error is at most half a guard unit for each
//! chunk of six bits, and 0 if all products are whole and there are no guard bits. Nothing else of net and heap changes.
//!
//! By: `rows_of`.
#![tactic(auto)]

mod chunk;
mod rows;
mod table;

pub use rows::rows_of;
