//! Lists the nodes that each node of a net reads.
ghost use Rattle.std.specs.Prelude.{◌≡◌, IfOk};
ghost use Rattle.opgen_schedule.specs.Reads.{reads_of};

use opgen_net::Node;
use std::alloc::{AllocError, Global};

/// The nodes that a node reads, in order.
pub fn reads_of(alloc: Global, node: &Node) -> Result<Vec<usize>, AllocError>
    ensures { IfOk result (λ v. v.items ≡ reads_of node.now) }
{
    let mut reads = Vec::new(alloc);
    match node {
        Node::Input { .. } | Node::Constant(_) => {}
        Node::Cells { expr, .. } => reads = expr.expr().names(alloc)?,
        Node::Choice { on, yes, no } => {
            reads.push(*on)?;
            reads.push(yes.node)?;
            reads.push(no.node)?;
        }
        Node::Table { address, .. } => reads.push(*address)?,
        Node::Delay { of } => reads.push(*of)?,
    }
    Ok(reads)
}
