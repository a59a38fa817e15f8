//! The net of several constants times one input, on the adder graph of their odd parts (de Dinechin and Kumm,
//! Application-Specific Arithmetic).
//!
//! Proved: For all constants that a version accepts, and every graph that has their odd parts, the net is that of the
//! recipe on this graph. Each output has, at every whole time and for all inputs, the input times its constant. The
//! net fits the operator. On the graph of the least set of adders, accepted constants have such a net, and one (that one
//! exists is a classical proof).
//!
//! By: `build`; of `opgen_part_laws` the laws `one_net_of_several`, `some_net_of_several`.
#![tactic(auto)]

mod several;

pub use several::build;
