//! Expressions and slices over other nodes: each node that is read is replaced by its place in a list.
ghost use Rattle.std.specs.Prelude.{◌≡◌, IfOk, slice_index};
ghost use Rattle.opgen_design.specs.Plain.{plain, plain_all};
ghost use Rattle.opgen_cuts.specs.Renamed.{renamed, renamed_all, renamed_slice};

use opgen_net::{Expr, Slice};
use std::alloc::{AllocError, Global};

/// The place of a node.
pub(crate) fn place_at(places: &[usize], node: usize) -> usize
    ensures { result ≡ slice_index places.now node }
{
    places.get(node).copied().unwrap_or(0)
}

/// A slice over the places.
pub(crate) fn renamed_slice(places: &[usize], slice: Slice) -> Slice
    ensures { result ≡ renamed_slice places.now slice }
{
    Slice {
        node: place_at(places, slice.node),
        high: slice.high,
        low: slice.low,
    }
}

/// An expression over the places.
#[cycle(renamed)]
pub(crate) fn renamed(alloc: Global, places: &[usize], expr: &Expr) -> Result<Expr, AllocError>
    ensures { IfOk result (λ r. plain r ≡ renamed places.now (plain expr.now)) }
{
    match expr {
        Expr::Name(node) => Ok(Expr::Name(place_at(places, *node))),
        Expr::Part(slice) => Ok(Expr::Part(renamed_slice(places, *slice))),
        Expr::Bits(word) => Ok(Expr::Bits(*word)),
        Expr::Port(place) => Ok(Expr::Port(*place)),
        Expr::Not(operand) => Ok(Expr::Not(Box::new(alloc, renamed(alloc, places, operand)?)?)),
        Expr::Chain(op, operands) => Ok(Expr::Chain(*op, renamed_all(alloc, places, operands)?)),
    }
}

#[cycle(renamed)]
fn renamed_all(alloc: Global, places: &[usize], exprs: &[Expr]) -> Result<Vec<Expr>, AllocError>
    ensures { IfOk result (λ r. plain_all r.items ≡ renamed_all places.now (plain_all exprs.now)) }
{
    let mut found = Vec::new(alloc);
    for expr in exprs {
        found.push(renamed(alloc, places, expr)?)?;
    }
    Ok(found)
}
