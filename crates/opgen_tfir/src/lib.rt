//! The net of a transposed filter: the products of its taps on one adder graph, added along a line of delays (de Dinechin
//! and Kumm, Application-Specific Arithmetic).
//!
//! Proved: For every filter that a version accepts, and every graph that has the odd parts of its taps, the net is that of
//! the recipe on this graph. The node of the sum from a tap on has, at every whole time and for all inputs, the sum of the
//! inputs times these taps, with half a unit of the output where the output has fewer places than the sum, modulo 2 to the
//! power of the node's width. That is the width which the sum's own range needs, or that of the sum of all taps where the
//! graph is searched for. The net fits the operator, the first cycles with their past of zeros included.
//!
//! By: `build`.
#![tactic(auto)]

mod filter;
mod products;
mod sums;

pub use filter::build;
pub use products::Products;
