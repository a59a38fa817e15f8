//! The strongly connected components of a directed graph.
//!
//! Proved: Each node gets the number of its component: nodes with the same number have paths to each other, links never lead
//! to greater numbers, and a node is cyclic exactly if a path leads from it back to it.
//!
//! By: `components`.
#![tactic(auto)]

ghost use Rattle.std.specs.Prelude.{IfOk};
ghost use Rattle.opgen_components.specs.Graph.{IsGraph, AreComponents, graph_of};

mod bounds;
mod walk;

use std::alloc::{AllocError, Global};
use walk::Walk;

/// The strongly connected component of a node: the node, and those that have paths to it and from it.
#[derive(Clone, Copy, Debug, PartialEq, Eq)]
pub struct Component {
    /// The same for the nodes of one component. Links to other components lead to smaller numbers.
    pub number: usize,
    /// Whether a path leads from the node back to it.
    pub cyclic: bool,
}

/// The component of each node of a graph, which has for each node the list of the nodes that it leads to.
///
/// By the path-based algorithm (Dijkstra, *A Discipline of Programming*, 1976; Gabow, 2000), without recursion: time and memory
/// go with the number of nodes and links.
pub fn components(alloc: Global, graph: &[Vec<usize>]) -> Result<Vec<Component>, AllocError>
    requires { IsGraph (graph_of graph.now) }
    ensures { IfOk result (λ cs. AreComponents (graph_of graph.now) cs.items) }
{
    let mut walk = Walk::new(alloc, graph.len())?;
    for root in 0..graph.len() {
        if walk.is_new(root) {
            walk.visit(graph, root)?;
        }
    }
    walk.components(alloc)
}
