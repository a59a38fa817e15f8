//! Builds the output of each constant from the multiple of its odd part: shifted, and negated if the constant is negative.
ghost use Rattle.std.specs.Prelude.{◌≡◌, ◌<◌, ℤ, pos, length, slice_index, get_or, unsigned_abs, All, Contains, IfOk, OnOk};
ghost use Rattle.opgen_num.specs.declared.limits.TheConstants.{MAX_CONSTANT};
ghost use Rattle.opgen_design.specs.Value.{IsWidth};
ghost use Rattle.opgen_net.specs.Valid.{IsValid, widths};
ghost use Rattle.opgen_kinds.specs.Several.{IsAcceptedSeveral};
ghost use Rattle.opgen_ports.specs.OddParts.{odd_part};
ghost use Rattle.opgen_ports.specs.Ranges.{IsWithin};
ghost use Rattle.opgen_graph.specs.Placing.{IsNode, HasOddPart, factors};
ghost use Rattle.opgen_graph.specs.Recipe.{negated as negated_of, multiples_in, with_magnitude, with_constant, with_output, with_outputs};

use crate::adders::chain;
use crate::multiples::{Multiple, multiple_of, operand};
use opgen_net::{Class, Net, Op, Slice};
use opgen_num::{Memory, Word};
use opgen_operator::Several;
use std::alloc::Global;

// Takes a node off zeros.
fn negated(alloc: Global, net: &mut Net, width: u32, node: usize) -> Result<usize, Memory>
    requires net { IsValid net.old }
    requires width { IsWidth width }
    requires node { slice_index (widths net.old.nodes) node ≡ width }
    ensures ok { OnOk result (net.new ≡ (negated_of width (record { net = net.old; place = node })).net) }
    ensures place { IfOk result (λ n. n ≡ (negated_of width (record { net = net.old; place = node })).place) }
    ensures valid { IsValid net.new }
{
    let zeros = net.constant(Word::new(0, width))?;
    net.cells(Class::Add, width, chain(alloc, Op::Minus, zeros, node)?)
}

/// Makes the input times a number above 0, in a width.
pub fn magnitude(
    alloc: Global,
    net: &mut Net,
    signed: bool,
    width: u32,
    known: &[Multiple],
    number: u32,
) -> Result<usize, Memory>
    requires net { IsValid net.old }
    requires width { IsWidth width }
    requires nodes { All (IsNode net.old) known.now }
    requires some { 0 < number }
    requires odd { Contains (factors known.now) (odd_part number) }
    ensures ok { OnOk result (net.new ≡ (with_magnitude signed width (multiples_in net.old known.now) number).net) }
    ensures place { IfOk result (λ n. n ≡ (with_magnitude signed width (multiples_in net.old known.now) number).place) }
    ensures valid { IsValid net.new }
{
    let power = number.trailing_zeros();
    let odd = multiple_of(known, number >> power);
    operand(alloc, net, signed, power, width, odd)
}

/// Makes the input times a constant, in a width.
pub fn constant_node(
    alloc: Global,
    net: &mut Net,
    signed: bool,
    width: u32,
    known: &[Multiple],
    constant: i64,
) -> Result<usize, Memory>
    requires net { IsValid net.old }
    requires width { IsWidth width }
    requires nodes { All (IsNode net.old) known.now }
    requires small { IsWithin MAX_CONSTANT constant }
    requires odd { HasOddPart known.now constant }
    ensures ok { OnOk result (net.new ≡ (with_constant signed width (multiples_in net.old known.now) constant).net) }
    ensures place { IfOk result (λ n. n ≡ (with_constant signed width (multiples_in net.old known.now) constant).place) }
    ensures valid { IsValid net.new }
{
    if constant == 0 {
        return net.constant(Word::new(0, 1));
    }
    let number = constant.unsigned_abs() as u32;
    let node = magnitude(alloc, net, signed, width, known, number)?;
    if constant > 0 {
        return Ok(node);
    }
    negated(alloc, net, width, node)
}

// Makes the output of a constant.
fn place_output(
    alloc: Global,
    net: &mut Net,
    several: &Several,
    known: &[Multiple],
    place: usize,
) -> Result<(), Memory>
    requires net { IsValid net.old }
    requires several { IsAcceptedSeveral several.now }
    requires place { place < length several.now.constants }
    requires nodes { All (IsNode net.old) known.now }
    requires odd { HasOddPart known.now (get_or several.now.constants place (pos 0)) }
    ensures ok { OnOk result (net.new ≡
        (with_output several.now.input place (multiples_in net.old known.now)
        (get_or several.now.constants place (pos 0))).net) }
    ensures nodes { OnOk result (All (IsNode net.new) known.now) }
    ensures valid { IsValid net.new }
{
    let width = several.output(place).width;
    let constant = several.constants.as_slice()[place];
    let signed = several.input.signed;
    let node = constant_node(alloc, net, signed, width, known, constant)?;
    let name = format!(in alloc; "y{place}")?;
    let from = Slice {
        node,
        high: width - 1,
        low: 0,
    };
    net.output(&name, from)?;
    Ok(())
}

/// Makes the outputs of the constants, in their order.
pub fn place_outputs(
    alloc: Global,
    net: &mut Net,
    several: &Several,
    known: &[Multiple],
) -> Result<(), Memory>
    requires net { IsValid net.old }
    requires several { IsAcceptedSeveral several.now }
    requires nodes { All (IsNode net.old) known.now }
    requires odd { All (HasOddPart known.now) several.now.constants }
    ensures ok { OnOk result (net.new ≡
        with_outputs several.now.input 0 (multiples_in net.old known.now) several.now.constants) }
    ensures valid { IsValid net.new }
{
    'outputs: for place in 0..several.constants.len() {
        place_output(alloc, net, several, known, place)?;
    }
    Ok(())
}
