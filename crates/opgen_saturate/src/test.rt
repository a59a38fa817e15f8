//! The expressions that test whether a number lies outside the range of another format.
ghost use Rattle.std.specs.Prelude.{◌≡◌, ◌+◌, ◌^◌, ◌<◌, ◌≤◌, IfOk, map};
ghost use Rattle.opgen_design.specs.Plain.{plain};
ghost use Rattle.opgen_design.specs.Tree.{name};
ghost use Rattle.opgen_saturate.specs.Recipe.{counting, is_wider, first_dropped, bit_of, bit_list, joined, differs, any_node};

use opgen_net::{Expr, Op, Slice};
use opgen_num::Format;
use std::alloc::{AllocError, Global};

/// How many bits of a format count up from 0: all but a sign.
pub fn counting(to: Format) -> u32
    requires { 1 ≤ to.width }
    ensures { result ≡ counting to }
{
    if to.signed { to.width - 1 } else { to.width }
}

/// Whether every number of a format is a number of the other one.
pub fn is_wider(format: Format, to: Format) -> bool
    requires { 1 ≤ to.width }
    ensures { result ≡ is_wider format to }
{
    if format.signed {
        to.signed && format.width <= to.width
    } else {
        format.width <= counting(to)
    }
}

/// The lowest of the bits that have to be 0, or all equal.
pub fn first_dropped(format: Format, to: Format) -> u32
    requires from { 1 ≤ format.width }
    requires to { 1 ≤ to.width }
    ensures { result ≡ first_dropped format to }
{
    if format.signed {
        counting(to).min(format.width - 1)
    } else {
        counting(to)
    }
}

/// One bit of a node.
pub fn bit(node: usize, place: u32) -> Expr
    ensures { plain result ≡ bit_of node place }
{
    Expr::Part(Slice {
        node,
        high: place,
        low: place,
    })
}

// So many bits of a node from a place up, the highest first.
fn bits(alloc: Global, node: usize, low: u32, count: u32) -> Result<Vec<Expr>, AllocError>
    requires { low + count < 2 ^ 32 }
    ensures { IfOk result (λ v. map plain v.items ≡ bit_list node low count) }
{
    let mut found = Vec::new(alloc);
    let mut left = count;
    'bits: while left > 0 {
        left -= 1;
        found.push(bit(node, low + left))?;
    }
    Ok(found)
}

// The bits joined by an operator, where there are several.
fn joined(alloc: Global, op: Op, node: usize, low: u32, count: u32) -> Result<Expr, AllocError>
    requires some { 1 ≤ count }
    requires few { low + count < 2 ^ 32 }
    ensures { IfOk result (λ e. plain e ≡ joined op node low count) }
{
    if count == 1 {
        return Ok(bit(node, low));
    }
    let operands = bits(alloc, node, low, count)?;
    Ok(Expr::Chain(op, operands))
}

/// Whether one of so many bits of a node is 1, and not all are if `both` formats are signed.
pub fn differs(
    alloc: Global,
    both: bool,
    node: usize,
    low: u32,
    count: u32,
) -> Result<Expr, AllocError>
    requires some { 1 ≤ count }
    requires few { low + count < 2 ^ 32 }
    ensures { IfOk result (λ e. plain e ≡ differs both node low count) }
{
    let any = joined(alloc, Op::Or, node, low, count)?;
    if !both {
        return Ok(any);
    }
    let all = joined(alloc, Op::And, node, low, count)?;
    let mut two = Vec::new(alloc);
    two.push(any)?;
    two.push(Expr::Not(Box::new(alloc, all)?))?;
    Ok(Expr::Chain(Op::And, two))
}

// All bits of a node.
fn all_of(node: usize) -> Expr
    ensures { plain result ≡ name node }
{
    Expr::Name(node)
}

/// Whether one of so many nodes of one bit is 1, from a place up.
pub fn any_node(alloc: Global, first: usize, count: usize) -> Result<Expr, AllocError>
    requires { first + count < 2 ^ 64 }
    ensures { IfOk result (λ e. plain e ≡ any_node first count) }
{
    let mut found = Vec::new(alloc);
    let mut left = count;
    'nodes: while left > 0 {
        left -= 1;
        found.push(all_of(first + left))?;
    }
    Ok(Expr::Chain(Op::Or, found))
}
