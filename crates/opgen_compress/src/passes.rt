//! The passes of a compressor tree: each pass reduces all columns to the next smaller height, until two bits are left in each.
ghost use Rattle.std.specs.Prelude.{◌≡◌, ◌≤◌, ◌<◌, ◌^◌, ◌-◌, [], ◌∷◌, length, reverse, All, IfOk};
ghost use Rattle.opgen_net.specs.Valid.{IsValid, widths};
ghost use Rattle.opgen_net.specs.WordRule.{IsThere};
ghost use Rattle.opgen_compress.specs.Recipe.{is_none, column_lowered, pass as passed, passes, heights_below, fullest as fullest_of, lowered};
ghost use Rattle.opgen_heap.specs.Standing.{AllThere};
ghost use Rattle.opgen_compress.specs.Adder.{work};
ghost use Rattle.opgen_compress.specs.Kept.{WorkThere};

use crate::adders::{full_adder, half_adder};
use crate::queue::Queue;
use opgen_list::Items;
use opgen_net::{Net, WordBit};
use opgen_num::Memory;
use std::alloc::{AllocError, Global};

// Brings a column down to a height, and answers its carries.
fn reduce(
    alloc: Global,
    height: usize,
    top: bool,
    column: &mut Queue,
    net: &mut Net,
) -> Result<Items<WordBit>, Memory>
    requires net { IsValid net.old }
    requires height { 2 ≤ height }
    requires there { All (IsThere (widths net.old.nodes)) column.old }
    ensures ok { IfOk result (λ carries. column_lowered height top net.old column.old ≡ work net.new column.new carries) }
    ensures there { IfOk result (λ carries. WorkThere (work net.new column.new carries)) }
    ensures valid { IsValid net.new }
{
    let mut carries = Items::new(alloc);
    let mut excess = column.len().saturating_sub(height);
    'adders: while excess >= 2 {
        full_adder(alloc, top, column, &mut carries, net)?;
        excess -= 2;
    }
    if excess == 1 {
        half_adder(alloc, top, column, &mut carries, net)?;
    }
    Ok(carries)
}

// Takes the first of some columns.
fn first(columns: &mut Vec<Queue>) -> Queue
    requires { 0 < length columns.old.items }
    ensures { columns.old.items ≡ result ∷ columns.new.items }
{
    columns.remove(0)
}

// Whether no column follows.
fn is_last(rest: &[Queue]) -> bool
    ensures { result ≡ is_none rest.now }
{
    rest.is_empty()
}

// Brings all columns down to a height, from the lowest up.
fn pass(
    alloc: Global,
    height: usize,
    columns: Vec<Queue>,
    net: &mut Net,
) -> Result<Vec<Queue>, Memory>
    requires net { IsValid net.old }
    requires height { 2 ≤ height }
    requires there { AllThere net.old columns.items }
    ensures ok { IfOk result (λ lower. passed height net.old [] columns.items ≡ record { net = net.new; columns = lower.items }) }
    ensures there { IfOk result (λ lower. AllThere net.new lower.items) }
    ensures valid { IsValid net.new }
{
    let mut rest = columns;
    let mut lower = Items::new(alloc);
    let mut carries = Items::new(alloc);
    'columns: while !rest.is_empty() {
        let mut column = first(&mut rest);
        column.append(carries.as_slice())?;
        carries = reduce(alloc, height, is_last(&rest), &mut column, net)?;
        lower.push(column)?;
    }
    Ok(lower.into_vec())
}

// The heights that are less than a number of bits, rising.
fn heights(alloc: Global, bits: usize) -> Result<Vec<usize>, AllocError>
    requires { bits < 2 ^ 63 }
    ensures value { IfOk result (λ hs. reverse hs.items ≡ heights_below bits) }
    ensures large { IfOk result (λ hs. All (λ h. 2 ≤ h) hs.items) }
{
    let mut all = Vec::new(alloc);
    let mut height = 2;
    'rising: while height < bits {
        all.push(height)?;
        height += height / 2;
    }
    Ok(all)
}

/// The number of bits in the fullest column.
pub fn fullest(columns: &[Queue]) -> usize
    ensures value { result ≡ fullest_of columns.now }
    ensures small { result < 2 ^ 63 }
{
    let mut most = 0;
    for column in columns {
        most = most.max(column.len());
    }
    most
}

/// Brings all columns down to two bits.
pub fn lower(alloc: Global, columns: Vec<Queue>, net: &mut Net) -> Result<Vec<Queue>, Memory>
    requires net { IsValid net.old }
    requires there { AllThere net.old columns.items }
    ensures ok { IfOk result (λ lower. lowered net.old columns.items ≡ record { net = net.new; columns = lower.items }) }
    ensures valid { IsValid net.new }
{
    let mut left = heights(alloc, fullest(&columns))?;
    let mut columns = columns;
    'falling: while let Some(height) = left.pop() {
        columns = pass(alloc, height, columns, net)?;
    }
    Ok(columns)
}
