//! The nets of scales and filters of finite response: tables of the coefficients' multiples, added in a bit heap (de
//! Dinechin and Kumm, Application-Specific Arithmetic).
//!
//! Proved: For every sum that a version accepts, with either compressor: the net is that of the recipe, and it fits the
//! operator, scale or filter, the first cycles with their past of zeros included.
//!
//! By: `build`.
#![tactic(auto)]

mod factor;
mod filter;
mod taps;
mod terms;

pub use filter::build;
