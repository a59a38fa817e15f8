//! The drivers of a net's design: one for each node, a register for each copy of a node, and one for each output.
ghost use Rattle.std.specs.Prelude.{◌≡◌, ◌++◌, ◌+◌, ◌^◌, ◌<◌, ◌≤◌, ℕ, [], not, filter, map, IfOk, OnOk, All, length};
ghost use Rattle.std.specs.List.{list_any, range_with_len};
ghost use Rattle.opgen_design.specs.Order.{is_register};
ghost use Rattle.opgen_net.specs.Made.{addressed, last_row};
ghost use Rattle.opgen_net.specs.Valid.{MayStand, is_delay as is_delay_of};
ghost use Rattle.opgen_pipe.specs.Counts.{AreSmall, IsSmall};
ghost use Rattle.opgen_pipe.specs.Pipelined.{all_of, copy_register, node_drivers, output_drivers, own_driver};

use crate::reading::{read_in, slice_in, tree_in};
use crate::standing::Standing;
use opgen_design::{Driver, Expr, Formula};
use opgen_list::Items;
use opgen_net::{Node, Output};
use opgen_num::Word;
use std::alloc::{AllocError, Global};

// Each row but the last, with its address.
fn addressed(alloc: Global, width: u32, rows: &[Word]) -> Result<Items<(Word, Word)>, AllocError>
    requires rows { length rows.now ≡ 2 ^ width }
    requires small { width ≤ 6 }
    ensures { IfOk result (λ pairs. pairs ≡ addressed width 0 rows.now) }
{
    let mut pairs = Items::new(alloc);
    'rows: for address in 0..rows.len() - 1 {
        pairs.push((Word::new(address as u128, width), rows[address]))?;
    }
    Ok(pairs)
}

// The row of the highest address.
fn last_row(rows: &[Word]) -> Word
    requires { 1 ≤ length rows.now }
    ensures { result ≡ last_row rows.now }
{
    rows[rows.len() - 1]
}

// What gives a node's own signal its words, where the ports of the inputs begin at a place.
fn own_driver(
    alloc: Global,
    first: usize,
    standings: &[Standing],
    own: Standing,
    node: &Node,
) -> Result<Driver, AllocError>
    requires small { AreSmall standings.now }
    requires cycle { own.slot.cycle ≤ 2 ^ 32 }
    requires stands { MayStand (map (λ p. p.width) standings.now) node.now }
    requires port { (p w : ℕ) → node.now ≡ Node.Input p w → first + p < 2 ^ 64 }
    ensures { IfOk result (λ driver. driver ≡ own_driver first standings.now own node.now) }
{
    let to = own.signal;
    let cycle = own.slot.cycle;
    match node {
        Node::Input { port, .. } => Ok(Driver::Assign {
            to,
            expr: Formula::new(Expr::Port(first + *port)),
        }),
        Node::Constant(word) => Ok(Driver::Assign {
            to,
            expr: Formula::new(Expr::Bits(*word)),
        }),
        Node::Cells { expr, .. } => {
            let tree = tree_in(alloc, standings, cycle, expr.expr())?;
            Ok(Driver::Assign {
                to,
                expr: Formula::new(tree),
            })
        }
        Node::Choice { on, yes, no } => Ok(Driver::Choice {
            to,
            on: Formula::new(Expr::Name(read_in(standings, cycle, *on))),
            yes: Formula::new(slice_in(standings, cycle, *yes)),
            no: Formula::new(slice_in(standings, cycle, *no)),
        }),
        Node::Table { address, rows } => {
            let rows = rows.as_slice();
            let pairs = addressed(alloc, standings[*address].width, rows)?;
            Ok(Driver::Table {
                to,
                on: Formula::new(Expr::Name(read_in(standings, cycle, *address))),
                rows: pairs,
                other: last_row(rows),
            })
        }
        Node::Delay { of } => Ok(Driver::Register {
            to,
            expr: Formula::new(Expr::Name(read_in(standings, cycle, *of))),
        }),
    }
}

fn is_delay(node: &Node) -> bool
    ensures { result ≡ is_delay_of node.now }
{
    matches!(node, Node::Delay { .. })
}

/// Appends the drivers of the nodes that are no delays.
pub(crate) fn push_plain(
    alloc: Global,
    drivers: &mut Items<Driver>,
    first: usize,
    standings: &[Standing],
    nodes: &[Node],
) -> Result<(), AllocError>
    requires small { AreSmall standings.now }
    requires standings { length standings.now ≡ length nodes.now }
    requires stand { All (MayStand (map (λ p. p.width) standings.now)) nodes.now }
    requires ports { All (λ n. (p w : ℕ) → n ≡ Node.Input p w → first + p < 2 ^ 64) nodes.now }
    ensures { OnOk result (drivers.new ≡ drivers.old ++ filter (λ k. not (is_register k)) (all_of (node_drivers first standings.now) 0 nodes.now)) }
{
    'nodes: for (number, node) in nodes.iter().enumerate() {
        if !is_delay(node) {
            drivers.push(own_driver(alloc, first, standings, standings[number], node)?)?;
        }
    }
    Ok(())
}

// Appends the registers of the copies of a node.
fn push_copies(drivers: &mut Items<Driver>, own: Standing) -> Result<(), AllocError>
    requires { IsSmall own }
    ensures { OnOk result (drivers.new ≡ drivers.old ++ map (copy_register own) (range_with_len 0 own.copies)) }
{
    'copies: for copy in 0..own.copies {
        drivers.push(Driver::Register {
            to: own.signal + 1 + copy,
            expr: Formula::new(Expr::Name(own.signal + copy)),
        })?;
    }
    Ok(())
}

/// Appends the registers of the nodes: of each its own, if it is a delay, and those of its copies.
pub(crate) fn push_registers(
    alloc: Global,
    drivers: &mut Items<Driver>,
    first: usize,
    standings: &[Standing],
    nodes: &[Node],
) -> Result<(), AllocError>
    requires small { AreSmall standings.now }
    requires standings { length standings.now ≡ length nodes.now }
    requires stand { All (MayStand (map (λ p. p.width) standings.now)) nodes.now }
    requires ports { All (λ n. (p w : ℕ) → n ≡ Node.Input p w → first + p < 2 ^ 64) nodes.now }
    ensures { OnOk result (drivers.new ≡ drivers.old ++ filter is_register (all_of (node_drivers first standings.now) 0 nodes.now)) }
{
    'nodes: for (number, node) in nodes.iter().enumerate() {
        let own = standings[number];
        if is_delay(node) {
            drivers.push(own_driver(alloc, first, standings, own, node)?)?;
        }
        push_copies(drivers, own)?;
    }
    Ok(())
}

/// Appends the drivers of the outputs, whose ports begin at a place.
pub(crate) fn push_outputs(
    drivers: &mut Items<Driver>,
    first: usize,
    standings: &[Standing],
    latency: usize,
    outputs: &[Output],
) -> Result<(), AllocError>
    requires small { AreSmall standings.now }
    requires latency { latency ≤ 2 ^ 32 }
    requires there { All (λ o. o.from.node < length standings.now) outputs.now }
    requires ports { first + length outputs.now < 2 ^ 64 }
    ensures { OnOk result (drivers.new ≡ drivers.old ++ output_drivers standings.now latency first outputs.now) }
{
    'outputs: for (place, output) in outputs.iter().enumerate() {
        drivers.push(Driver::Output {
            port: first + place,
            expr: Formula::new(slice_in(standings, latency, output.from)),
        })?;
    }
    Ok(())
}

/// Whether one of the drivers is a register.
pub(crate) fn has_register(drivers: &[Driver]) -> bool
    ensures { result ≡ list_any is_register drivers.now }
{
    drivers.iter().any(|driver| driver.is_register())
}
