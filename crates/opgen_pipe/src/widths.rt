//! The width in bits of each node of a net.
ghost use Rattle.std.specs.Prelude.{◌≡◌, ◌<◌, IfOk};
ghost use Rattle.opgen_net.specs.Valid.{IsValid, LiesWithin, MayStand, node_width, slice_width, widths};

use opgen_design::Slice;
use opgen_net::{Net, Node};
use std::alloc::{AllocError, Global};

/// The number of bits of a slice of a node, over the widths of the nodes.
pub(crate) fn slice_width(widths: &[u32], slice: Slice) -> u32
    requires { LiesWithin widths.now slice }
    ensures { result ≡ slice_width slice }
{
    let node_width = widths[slice.node];
    prove!(slice.high < node_width);
    slice.high + 1 - slice.low
}

// The width of a node, over the widths of the nodes before it.
fn node_width(widths: &[u32], node: &Node) -> u32
    requires { MayStand widths.now node.now }
    ensures { result ≡ node_width widths.now node.now }
{
    match node {
        Node::Input { width, .. } => *width,
        Node::Constant(word) => word.width(),
        Node::Cells { width, .. } => *width,
        Node::Choice { yes, .. } => slice_width(widths, *yes),
        Node::Table { rows, .. } => rows.get(0).width(),
        Node::Delay { of } => widths[*of],
    }
}

/// The width of each node of a net.
pub(crate) fn node_widths(alloc: Global, net: &Net) -> Result<Vec<u32>, AllocError>
    requires { IsValid net.now }
    ensures { IfOk result (λ v. v.items ≡ widths net.now.nodes) }
{
    let nodes = net.nodes.as_slice();
    let mut widths = Vec::new(alloc);
    'nodes: for node in nodes {
        let width = node_width(&widths, node);
        widths.push(width)?;
    }
    Ok(widths)
}
