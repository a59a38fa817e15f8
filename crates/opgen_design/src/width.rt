//! The width in bits of an expression over the signals and ports of a design, if its parts fit together.
ghost use Rattle.std.specs.Prelude.{◌≡◌, ◌+◌, ◌-◌, ◌&&◌, nat_le, nat_lt, if◌then◌else◌, None};
ghost use Rattle.opgen_design.specs.Plain.{plain, plain_all};
ghost use Rattle.opgen_design.specs.Sound.{signal_widths, port_widths};
ghost use Rattle.opgen_design.specs.Tree.{name, part, port};
ghost use Rattle.opgen_design.specs.Value.{as_width, joined, joined_options, width, chain_width};

use crate::{Design, Expr, Op, Slice};
use opgen_num::MAX_WIDTH;

// The number, if it is the width of a signal.
fn as_width(width: u32) -> Option<u32>
    ensures { result ≡ as_width width }
{
    if 1 <= width && width <= MAX_WIDTH {
        Some(width)
    } else {
        None
    }
}

// The width of a slice of a signal, if it lies within it.
fn part_width(whole: u32, slice: Slice) -> Option<u32>
    ensures { result ≡ (if nat_le slice.low slice.high && nat_lt slice.high whole then as_width (slice.high + 1 - slice.low) else None) }
{
    if slice.low <= slice.high && slice.high < whole {
        as_width(slice.high + 1 - slice.low)
    } else {
        None
    }
}

// The width of two operands together.
fn joined(op: Op, first: u32, second: u32) -> Option<u32>
    ensures { result ≡ joined op first second }
{
    match op {
        Op::Cat => match first.checked_add(second) {
            Some(sum) => as_width(sum),
            None => None,
        },
        _ => { if first == second { Some(first) } else { None } }
    }
}

fn joined_options(op: Op, first: Option<u32>, second: Option<u32>) -> Option<u32>
    ensures { result ≡ joined_options op first second }
{
    match (first, second) {
        (Some(first), Some(second)) => joined(op, first, second),
        _ => None,
    }
}

impl Design {
    // The width of a signal, if it is there and has an allowed width.
    fn name_width(&self, node: usize) -> Option<u32>
        ensures { result ≡ width (signal_widths self.now) (port_widths self.now) (name node) }
    {
        match self.signals.as_slice().get(node) {
            Some(signal) => as_width(signal.width),
            None => None,
        }
    }

    // The width of a slice of a signal, if it lies within it.
    fn slice_width(&self, slice: Slice) -> Option<u32>
        ensures { result ≡ width (signal_widths self.now) (port_widths self.now) (part slice.node slice.high slice.low) }
    {
        match self.signals.as_slice().get(slice.node) {
            Some(signal) => part_width(signal.width, slice),
            None => None,
        }
    }

    // The width of a port, if it is there and has an allowed width.
    fn port_width(&self, place: usize) -> Option<u32>
        ensures { result ≡ width (signal_widths self.now) (port_widths self.now) (port place) }
    {
        match self.ports.as_slice().get(place) {
            Some(port) => as_width(port.width),
            None => None,
        }
    }
}

impl Expr {
    /// The width of an expression over the signals and ports of a design, where its parts fit.
    #[cycle(width)]
    pub(crate) fn width(&self, design: &Design) -> Option<u32>
        ensures { result ≡ width (signal_widths design.now) (port_widths design.now) (plain self.now) }
    {
        match self {
            Expr::Name(node) => design.name_width(*node),
            Expr::Part(slice) => design.slice_width(*slice),
            Expr::Bits(word) => as_width(word.width()),
            Expr::Port(place) => design.port_width(*place),
            Expr::Not(operand) => operand.width(design),
            Expr::Chain(op, operands) => chain_width(*op, operands, design),
        }
    }
}

#[cycle(width)]
fn chain_width(op: Op, operands: &[Expr], design: &Design) -> Option<u32>
    ensures { result ≡ chain_width (signal_widths design.now) (port_widths design.now) op (plain_all operands.now) }
{
    match operands {
        [] | [_] => None,
        [first, rest @ ..] => {
            let mut width = first.width(design);
            for operand in rest {
                width = joined_options(op, width, operand.width(design));
            }
            width
        }
    }
}
