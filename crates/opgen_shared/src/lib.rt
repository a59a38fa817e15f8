//! Adder graphs by a fixed rule, without a search: the odd parts of many numbers, by adders that they share (after Bull
//! and Horrocks; de Dinechin and Kumm, Application-Specific Arithmetic).
//!
//! Proved: The graph is the one of the rule: the odd parts of the numbers in increasing order, each by its best step.
//! Numbers have one such graph (that one exists is a classical proof), and numbers with the same odd parts above 1 have
//! the same one. Each adder of the graph makes its value of two numbers before it, with their shifts and signs. The
//! values are odd, above 1 and below 2^21, and each stands once. Every odd part above 1 of the numbers is one of them.
//! There are no more adders than the canonical signed digits of the different odd parts need, each part apart.
//!
//! By: `shared_graph`; the laws `some_rule_graph`, `rule_graph_serves`, `one_rule_graph` and `parts_alone_count`.
#![tactic(auto)]

mod candidates;
mod graph;
mod laws;
mod parts;
mod steps;
mod sums;
#[cfg(test)]
mod tests;
mod weights;

pub use graph::shared_graph;
pub use laws::{one_rule_graph, parts_alone_count, rule_graph_serves, some_rule_graph};
