//! What the sums of a transposed filter are made of: the nodes of odd parts, half a unit, and the width of each sum.
ghost use Rattle.std.specs.Prelude.{◌≡◌, ◌≤◌, length, All};
ghost use Rattle.opgen_num.specs.declared.limits.TheConstants.{MAX_CONSTANT, MAX_TAPS};
ghost use Rattle.opgen_design.specs.Value.{IsWidth};
ghost use Rattle.opgen_ports.specs.Ranges.{IsWithin};
ghost use Rattle.opgen_tfir.specs.Recipe.{own_format as own_format_of, sum_width as sum_width_of};
ghost use Rattle.opgen_tfir.specs.Steps.{HasWidths};

use opgen_graph::Multiple;
use opgen_list::Items;
use opgen_num::Format;
use opgen_ports::ports::covering;
use opgen_ports::reach::{Reach, reach_over};

/// The nodes that have the input times odd parts, and what sums are made of them.
#[derive(Drop)]
pub struct Products {
    pub input: Format,
    /// The width of the sum of all taps.
    pub width: u32,
    /// Whether the sum from a tap on has the width that its own range needs; if not, it has that of the
    /// sum of all taps.
    pub narrow: bool,
    /// Half a unit of the output's last place, or 0 where the output has the last bit of the sum.
    pub half: u64,
    pub parts: Items<Multiple>,
}

/// The format that the range of the sum of some taps needs, with half a unit in it.
pub(crate) fn own_format(products: &Products, taps: &[i64]) -> Format
    requires widths { HasWidths products.now }
    requires few { length taps.now ≤ MAX_TAPS }
    requires small { All (IsWithin MAX_CONSTANT) taps.now }
    ensures value { result ≡ own_format_of products.now taps.now }
    ensures wide { IsWidth result.width }
{
    let reach = reach_over(products.input, taps);
    let own = Reach {
        below: reach.below,
        above: reach.above + u128::from(products.half),
    };
    covering(own, products.input.lsb)
}

/// The width of the sum from a tap on.
pub(crate) fn sum_width(products: &Products, taps: &[i64]) -> u32
    requires widths { HasWidths products.now }
    requires few { length taps.now ≤ MAX_TAPS }
    requires small { All (IsWithin MAX_CONSTANT) taps.now }
    ensures value { result ≡ sum_width_of products.now taps.now }
    ensures wide { IsWidth result }
{
    if products.narrow {
        own_format(products, taps).width
    } else {
        products.width
    }
}
