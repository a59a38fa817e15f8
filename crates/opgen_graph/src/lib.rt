//! Adder graphs: several constants times one input, by adders of shifted numbers (de Dinechin and Kumm, Application-Specific
//! Arithmetic).
//!
//! Proved: The first form and the least shift by which two numbers make a third. Whether a set can be reached from 1, and
//! then its graph by ranks, of which there is one. The cost of a set. The set of the signed digits' partial sums, which can
//! be reached. On every graph whose adders each make an odd number below 2^21 of two before it, and which has the odd parts
//! of the constants, the net of several constants is that of the recipe, fits the operator, and a design may have its port
//! names. The odd parts of constants. The nodes of a graph's numbers and of odd parts have, at every whole time, the input
//! times their factor.
//!
//! By: `combine`, `reach`, `cost`, `csd_set`, `makes_with`, `makes_among`, `graph_net`, `targets`, `parts`, `place_adders`,
//! `place_parts`; the laws `ranks_are_graphs`, `one_graph`, `digit_sets_reach`, `reached_sets_serve`, `parts_are_odd` of
//! `opgen_part_laws`.
#![tactic(auto)]

mod adders;
mod constants;
mod costs;
mod digit_set;
mod forms;
mod makes;
mod multiples;
mod net;
mod odd_parts;
mod part_nodes;
mod ranks;
mod shifts;

pub use adders::{chain, place_adders};
pub use constants::{constant_node, magnitude};
pub use costs::cost;
pub use digit_set::csd_set;
pub use forms::{Form, Step, combine};
pub use makes::{makes_among, makes_with};
pub use multiples::{Multiple, multiple_of, operand};
pub use net::{graph_net, input_net};
pub use odd_parts::targets;
pub use part_nodes::{parts, place_parts};
pub use ranks::{Adder, Graph, reach};
