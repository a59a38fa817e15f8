//! Translates expressions over nodes to expressions over signals: in each cycle the copy of a node that is valid there is read.
ghost use Rattle.std.specs.Prelude.{◌≡◌, ◌≤◌, ◌<◌, ◌^◌, IfOk, length};
ghost use Rattle.opgen_design.specs.Plain.{plain, plain_all};
ghost use Rattle.opgen_design.specs.Sound.{AllReads, AllOperandsRead};
ghost use Rattle.opgen_pipe.specs.Counts.{AreSmall, IsAny};
ghost use Rattle.opgen_pipe.specs.Reading.{read_in, slice_in, tree_in, trees_in};

use crate::standing::Standing;
use opgen_design::{Expr, Slice};
use std::alloc::{AllocError, Global};

/// The signal of a node that is read in a cycle.
pub(crate) fn read_in(standings: &[Standing], cycle: usize, node: usize) -> usize
    requires small { AreSmall standings.now }
    requires cycle { cycle ≤ 2 ^ 32 }
    requires there { node < length standings.now }
    ensures { result ≡ read_in standings.now cycle node }
{
    let own = standings[node];
    let copy = if own.constant {
        0
    } else {
        cycle.saturating_sub(own.slot.cycle)
    };
    own.signal + copy
}

/// A slice of a node that is read in a cycle: by name where it is the whole.
pub(crate) fn slice_in(standings: &[Standing], cycle: usize, slice: Slice) -> Expr
    requires small { AreSmall standings.now }
    requires cycle { cycle ≤ 2 ^ 32 }
    requires there { slice.node < length standings.now }
    ensures { plain result ≡ slice_in standings.now cycle slice }
{
    let node = read_in(standings, cycle, slice.node);
    let width = standings[slice.node].width;
    if slice.low == 0 && u64::from(slice.high) + 1 == u64::from(width) {
        Expr::Name(node)
    } else {
        Expr::Part(Slice {
            node,
            high: slice.high,
            low: slice.low,
        })
    }
}

/// An expression over nodes, over the signals that a cycle reads.
#[cycle(tree)]
pub(crate) fn tree_in(
    alloc: Global,
    standings: &[Standing],
    cycle: usize,
    expr: &Expr,
) -> Result<Expr, AllocError>
    requires small { AreSmall standings.now }
    requires cycle { cycle ≤ 2 ^ 32 }
    requires there { AllReads (λ j. j < length standings.now) IsAny (plain expr.now) }
    ensures { IfOk result (λ r. plain r ≡ tree_in standings.now cycle (plain expr.now)) }
{
    match expr {
        Expr::Name(node) => Ok(Expr::Name(read_in(standings, cycle, *node))),
        Expr::Part(slice) => Ok(slice_in(standings, cycle, *slice)),
        Expr::Bits(word) => Ok(Expr::Bits(*word)),
        Expr::Port(place) => Ok(Expr::Port(*place)),
        Expr::Not(operand) => Ok(Expr::Not(Box::new(
            alloc,
            tree_in(alloc, standings, cycle, operand)?,
        )?)),
        Expr::Chain(op, operands) => Ok(Expr::Chain(
            *op,
            trees_in(alloc, standings, cycle, operands)?,
        )),
    }
}

#[cycle(tree)]
fn trees_in(
    alloc: Global,
    standings: &[Standing],
    cycle: usize,
    exprs: &[Expr],
) -> Result<Vec<Expr>, AllocError>
    requires small { AreSmall standings.now }
    requires cycle { cycle ≤ 2 ^ 32 }
    requires there { AllOperandsRead (λ j. j < length standings.now) IsAny (plain_all exprs.now) }
    ensures { IfOk result (λ r. plain_all r.items ≡ trees_in standings.now cycle (plain_all exprs.now)) }
{
    let mut trees = Vec::new(alloc);
    for expr in exprs {
        trees.push(tree_in(alloc, standings, cycle, expr)?)?;
    }
    Ok(trees)
}
