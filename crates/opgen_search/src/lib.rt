//! The least set of adders that makes some constants, found by threads, and its graph.
//!
//! Proved: The least set of adders is the first member of the stated space by cost and then by list, for every number of
//! workers, every observer of the steps (the trait `Gate`) and every order in which they run. There is at most one. For
//! numbers with up to eight odd parts: the least set and its graph, which serves them and of which there is one (that one
//! exists is a classical proof).
//!
//! By: `least_set`, `least_graph`; of `opgen_part_laws` the laws `one_least`, `one_adder_set`, `one_least_graph`,
//! `some_least_graph`, `numbers_count`.
#![tactic(auto)]

mod adders;
mod explore;
mod fork;
mod gate;
mod hunt;
mod least;
mod node;
mod part;
mod piece;
mod take;

pub use adders::{LeastGraph, least_graph};
pub use gate::{Gate, OpenGate};
pub use least::least_set;
