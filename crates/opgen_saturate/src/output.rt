//! The step behind a net of one output.
ghost use Rattle.std.specs.Prelude.{◌≡◌, false, IfOk, OnOk};
ghost use Rattle.opgen_num.specs.Formats.{IsWidthOf};
ghost use Rattle.opgen_net.specs.Placed.{with_bits};
ghost use Rattle.opgen_net.specs.Valid.{IsValid, LiesWithin, slice_width, widths};
ghost use Rattle.opgen_net.specs.WordRule.{bits_from};
ghost use Rattle.opgen_saturate.specs.Output.{AreOutputFormats, ConvertsOutput, with_slice, converted_net};

use crate::step::{saturate, whole, wrap};
use opgen_list::Items;
use opgen_net::{Net, Output, Slice, push_bits};
use opgen_num::{Format, Memory, Overflow};
use std::alloc::Global;

// A node of the bits of a slice.
fn node_of(alloc: Global, net: &mut Net, from: Slice, width: u32) -> Result<usize, Memory>
    requires net { IsValid net.old }
    requires lies { LiesWithin (widths net.old.nodes) from }
    requires all { slice_width from ≡ width }
    requires width { IsWidthOf false width }
    ensures ok { OnOk result (net.new ≡ (with_bits net.old (bits_from from.node from.low width)).net) }
    ensures place { IfOk result (λ n. n ≡ (with_bits net.old (bits_from from.node from.low width)).place) }
    ensures valid { IsValid net.new }
{
    let mut bits = Items::new(alloc);
    push_bits(&mut bits, from.node, from.low, width)?;
    net.word(bits.as_slice())
}

// Appends what gives a slice the other format, and answers the node of that.
fn convert_slice(
    alloc: Global,
    net: &mut Net,
    overflow: Overflow,
    from: Slice,
    format: Format,
    to: Format,
) -> Result<usize, Memory>
    requires net { IsValid net.old }
    requires lies { LiesWithin (widths net.old.nodes) from }
    requires all { slice_width from ≡ format.width }
    requires from { IsWidthOf format.signed format.width }
    requires to { IsWidthOf to.signed to.width }
    ensures ok { OnOk result (net.new ≡ (with_slice overflow from format to net.old).net) }
    ensures place { IfOk result (λ n. n ≡ (with_slice overflow from format to net.old).place) }
    ensures valid { IsValid net.new }
{
    let node = node_of(alloc, net, from, format.width)?;
    match overflow {
        Overflow::Saturate => saturate(alloc, net, node, format, to),
        Overflow::Wrap => wrap(alloc, net, node, format, to),
    }
}

/// Gives the only output of a net another format: a number that this does not hold becomes its least or
/// greatest, or wraps. The inputs stay.
///
/// `format` is that in which the output is read. If memory runs out, the net is valid.
pub fn convert_output(
    alloc: Global,
    net: &mut Net,
    overflow: Overflow,
    format: Format,
    to: Format,
) -> Result<(), Memory>
    requires net { IsValid net.old }
    requires formats { AreOutputFormats net.old format to }
    ensures ok { OnOk result (net.new ≡ converted_net overflow format to net.old) }
    ensures valid { IsValid net.new }
    ensures converts { OnOk result (ConvertsOutput overflow net.old format to net.new) }
{
    let Some(output) = net.outputs.pop() else {
        return Ok(());
    };
    let place = convert_slice(alloc, net, overflow, output.from, format, to)?;
    net.outputs.push(Output {
        name: output.name,
        from: whole(to.width, place),
    })?;
    Ok(())
}
