//! Marks the nodes of a net that are needed whole.
ghost use Rattle.std.specs.Prelude.{◌≡◌, IfOk};
ghost use Rattle.opgen_design.specs.Plain.{plain, plain_all};
ghost use Rattle.opgen_cuts.specs.Needed.{needed, with_cell_reads, with_mark, with_node, with_operands, with_reads};

use opgen_net::{Class, Expr, Net, Node};
use std::alloc::{AllocError, Global};

// Marks a node, if it is there.
fn mark(marks: &mut [bool], node: usize)
    ensures { marks.new ≡ with_mark node marks.old }
{
    if node < marks.len() {
        marks[node] = true;
    }
}

// Marks the nodes that an expression reads.
#[cycle(reads)]
fn mark_reads(marks: &mut [bool], expr: &Expr)
    ensures { marks.new ≡ with_reads (plain expr.now) marks.old }
{
    match expr {
        Expr::Name(node) => mark(marks, *node),
        Expr::Part(slice) => mark(marks, slice.node),
        Expr::Bits(_) | Expr::Port(_) => {}
        Expr::Not(operand) => mark_reads(marks, operand),
        Expr::Chain(_, operands) => mark_operands(marks, operands),
    }
}

#[cycle(reads)]
fn mark_operands(marks: &mut [bool], exprs: &[Expr])
    ensures { marks.new ≡ with_operands (plain_all exprs.now) marks.old }
{
    for expr in exprs {
        mark_reads(marks, expr);
    }
}

// Marks the nodes that an expression of a class needs whole: wires and sums read bits.
fn mark_cells(marks: &mut [bool], class: Class, expr: &Expr)
    ensures { marks.new ≡ with_cell_reads class (plain expr.now) marks.old }
{
    match class {
        Class::Wire | Class::Add => {}
        Class::Logic | Class::Choice | Class::Table | Class::Register => mark_reads(marks, expr),
    }
}

// Marks the nodes that a node needs whole.
fn mark_node(marks: &mut [bool], node: &Node)
    ensures { marks.new ≡ with_node node.now marks.old }
{
    match node {
        Node::Input { .. } | Node::Constant(_) => {}
        Node::Cells { class, expr, .. } => mark_cells(marks, *class, expr.expr()),
        Node::Choice { on, yes, no } => {
            mark(marks, *on);
            mark(marks, yes.node);
            mark(marks, no.node);
        }
        Node::Table { address, .. } => mark(marks, *address),
        Node::Delay { of } => mark(marks, *of),
    }
}

/// Whether each node of a net is needed whole.
pub(crate) fn needed(alloc: Global, net: &Net) -> Result<Vec<bool>, AllocError>
    ensures { IfOk result (λ marks. marks.items ≡ needed net.now) }
{
    let mut marks = Vec::new(alloc);
    marks.resize(net.nodes.len(), false)?;
    'nodes: for node in net.nodes.as_slice() {
        mark_node(&mut marks, node);
    }
    'outputs: for output in net.outputs.as_slice() {
        mark(&mut marks, output.from.node);
    }
    Ok(marks)
}
