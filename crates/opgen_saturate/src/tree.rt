//! The cells that test whether a number lies outside: a row over the bits that are dropped, and cells that join them.
ghost use Rattle.std.specs.Prelude.{◌≡◌, ◌+◌, ◌-◌, ◌^◌, ◌<◌, ◌≤◌, ◌&&◌, false, length, slice_index, IfOk, OnOk};
ghost use Rattle.opgen_net.specs.declared.cell.Class.TheVariants.{Logic};
ghost use Rattle.opgen_net.specs.declared.node.Node.TheVariants.{Cells};
ghost use Rattle.opgen_net.specs.Placed.{with_last};
ghost use Rattle.opgen_net.specs.Valid.{IsValid, widths};
ghost use Rattle.opgen_saturate.specs.Recipe.{is_wider, stride, followed, with_row, any_node, joins, share, with_joins, with_test, last_place};
ghost use Rattle.opgen_saturate.specs.Converts.{AreFormats, AreBits};

use crate::test::{any_node, differs, first_dropped};
use opgen_net::{Class, Net};
use opgen_num::{Format, Memory};
use std::alloc::Global;

// How far the next group of bits starts above a group of six.
fn stride(both: bool) -> u32
    ensures { result ≡ stride both }
{
    if both { 5 } else { 6 }
}

// Appends a cell for each group of so many bits: each cell reads at most six.
fn push_row(
    alloc: Global,
    net: &mut Net,
    both: bool,
    node: usize,
    low: u32,
    count: u32,
) -> Result<(), Memory>
    requires net { IsValid net.old }
    requires some { 1 ≤ count }
    requires there { low + count ≤ slice_index (widths net.old.nodes) node }
    ensures ok { OnOk result (net.new ≡ with_row (followed both count) both node low count net.old) }
    ensures valid { IsValid net.new }
{
    let step = stride(both);
    let mut from = low;
    let mut left = count;
    'row: while left > 6 {
        let _group = net.cells(Class::Logic, 1, differs(alloc, both, node, from, 6)?)?;
        from += step;
        left -= step;
    }
    let _last = net.cells(Class::Logic, 1, differs(alloc, both, node, from, left)?)?;
    Ok(())
}

// Appends a cell that joins at most six nodes of one bit.
fn push_join(alloc: Global, net: &mut Net, first: usize, count: usize) -> Result<(), Memory>
    requires net { IsValid net.old }
    requires some { 2 ≤ count }
    requires few { count ≤ 6 }
    requires there { first + count ≤ length net.old.nodes }
    requires small { first + count < 2 ^ 64 }
    requires bits { AreBits (widths net.old.nodes) first }
    ensures ok { OnOk result (net.new ≡ with_last net.old (Cells Logic 1 (any_node first count))) }
    ensures valid { IsValid net.new }
{
    let _place = net.cells(Class::Logic, 1, any_node(alloc, first, count)?)?;
    Ok(())
}

// Appends cells that join the nodes from a place to the end of the net, and one another, until one is left.
fn push_joins(alloc: Global, net: &mut Net, first: usize) -> Result<(), Memory>
    requires net { IsValid net.old }
    requires some { first < length net.old.nodes }
    requires bits { AreBits (widths net.old.nodes) first }
    ensures ok { OnOk result (net.new ≡ with_joins (joins (length net.old.nodes - first)) first net.old) }
    ensures valid { IsValid net.new }
{
    let mut next = first;
    'joins: while net.nodes.len() - next > 1 {
        let count = (net.nodes.len() - next - 2) % 5 + 2;
        push_join(alloc, net, next, count)?;
        next += count;
    }
    Ok(())
}

// Whether both formats are signed.
fn are_signed(format: Format, to: Format) -> bool
    ensures { result ≡ format.signed && to.signed }
{
    format.signed && to.signed
}

/// Appends the cells that say whether the number of a node lies outside the range of another format, and answers the last.
///
/// Each cell reads at most six bits. Of n tested bits at most as many cells stand one behind the other as the
/// logarithm of n to base 6, rounded up, and one more. The sign is tested even if no bit is dropped.
pub fn test(
    alloc: Global,
    net: &mut Net,
    node: usize,
    format: Format,
    to: Format,
) -> Result<usize, Memory>
    requires net { IsValid net.old }
    requires formats { AreFormats net.old node format to }
    requires narrow { is_wider format to ≡ false }
    ensures ok { OnOk result (net.new ≡ with_test node format to net.old) }
    ensures place { IfOk result (λ n. n ≡ last_place (with_test node format to net.old)) }
    ensures valid { IsValid net.new }
{
    let low = first_dropped(format, to);
    let first = net.nodes.len();
    push_row(
        alloc,
        net,
        are_signed(format, to),
        node,
        low,
        format.width - low,
    )?;
    push_joins(alloc, net, first)?;
    Ok(net.nodes.len() - 1)
}
