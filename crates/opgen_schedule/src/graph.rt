//! The timing graph of a net: of each node its delay, its width, how it stands in a cycle, and the nodes that it reads.
ghost use Rattle.std.specs.Prelude.{◌≡◌, ◌<◌, All, [], length, nat_eq, slice_index, IfOk, OnOk};
ghost use Rattle.std.specs.List.{list_any};
ghost use Rattle.opgen_net.specs.Valid.{AllMayStand};
ghost use Rattle.opgen_schedule.specs.Graph.{IsOrdered, graph_of, operands, role_of, vertex_of, with_operand};
ghost use Rattle.opgen_schedule.specs.Reads.{reads_of};

use crate::reads::reads_of;
use crate::schedule::is_constant;
use opgen_list::Items;
use opgen_net::Node;
use std::alloc::{AllocError, Global};

/// How a node stands in a cycle: an input or a constant at the start of the first one, a delay at the start of any, and cells after
/// what they read.
#[derive(Clone, Copy, Debug, PartialEq, Eq)]
pub enum Role {
    Start,
    Hold,
    Cell,
}

/// A node of the timing graph: how long after its operands it has its word, in picoseconds; its width in bits; how it stands in a
/// cycle; and the nodes that it reads, each once, without constants.
#[derive(Drop)]
pub struct Vertex {
    pub delay: u32,
    pub width: u32,
    pub role: Role,
    pub reads: Items<usize>,
}

fn role_of(node: &Node) -> Role
    ensures { result ≡ role_of node.now }
{
    match node {
        Node::Input { .. } | Node::Constant(_) => Role::Start,
        Node::Cells { .. } | Node::Choice { .. } | Node::Table { .. } => Role::Cell,
        Node::Delay { .. } => Role::Hold,
    }
}

// Whether a node is among some.
fn is_among(nodes: &[usize], one: usize) -> bool
    ensures { result ≡ list_any (nat_eq one) nodes.now }
{
    'nodes: for node in nodes {
        if one == *node {
            return true;
        }
    }
    false
}

// Appends an operand, unless it is a constant or there already.
fn add_operand(nodes: &[Node], found: &mut Items<usize>, read: usize) -> Result<(), AllocError>
    requires { read < length nodes.now }
    ensures { OnOk result (found.new ≡ with_operand nodes.now found.old read) }
{
    if is_constant(&nodes[read]) || is_among(found.as_slice(), read) {
        Ok(())
    } else {
        found.push(read)
    }
}

// The nodes that a node reads, each once, without constants.
fn operands(alloc: Global, nodes: &[Node], node: &Node) -> Result<Items<usize>, AllocError>
    requires { All (λ j. j < length nodes.now) (reads_of node.now) }
    ensures { IfOk result (λ found. found ≡ operands nodes.now node.now) }
{
    let reads = reads_of(alloc, node)?;
    let mut found = Items::new(alloc);
    'reads: for read in &reads {
        add_operand(nodes, &mut found, *read)?;
    }
    Ok(found)
}

/// The timing graph of a net's nodes, over their delays and widths.
pub fn timing_graph(
    alloc: Global,
    nodes: &[Node],
    delays: &[u32],
    widths: &[u32],
) -> Result<Items<Vertex>, AllocError>
    requires valid { AllMayStand [] nodes.now }
    requires delays { length delays.now ≡ length nodes.now }
    requires widths { length widths.now ≡ length nodes.now }
    ensures graph { IfOk result (λ vertices. vertices ≡ graph_of delays.now widths.now nodes.now) }
    ensures ordered { IfOk result IsOrdered }
    ensures one_each { IfOk result (λ vertices. length vertices ≡ length nodes.now) }
{
    let mut vertices = Items::new(alloc);
    'nodes: for (place, node) in nodes.iter().enumerate() {
        vertices.push(Vertex {
            delay: delays[place],
            width: widths[place],
            role: role_of(node),
            reads: operands(alloc, nodes, node)?,
        })?;
    }
    Ok(vertices)
}
