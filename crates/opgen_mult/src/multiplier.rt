//! Builds the net of a product: partial products in a bit heap, its compression, and the output.
ghost use Rattle.std.specs.Prelude.{IfOk};
ghost use Rattle.opgen_operator.specs.declared.operator.Operator.TheVariants.{Multiply};
ghost use Rattle.opgen_operator.specs.Fits.{FitsInEachMode};
ghost use Rattle.opgen_kinds.specs.Product.{IsAcceptedProduct};
ghost use Rattle.opgen_mult.specs.Recipe.{IsNetOfProduct};

use crate::factors::products;
use crate::output::above_zeros;
use crate::places::{bits_below, constant, cut_of, heap_width, zeros_below};
use opgen_compress::compress;
use opgen_design::Slice;
use opgen_gpc::count_if;
use opgen_net::Net;
use opgen_num::Memory;
use opgen_operator::{Product, products_have_width};
use opgen_partial::Work;
use std::alloc::Global;

/// The net of the product `y` of the inputs `a` and `b`.
///
/// Where the output has not every bit of the product, its lowest columns are left out, as many as weigh at most half a unit of the
/// output's last place, and half a unit is added: the output is then less than one unit from the product. Larger counters go before
/// the compressor where they are asked for.
pub fn build(alloc: Global, product: &Product) -> Result<Net, Memory>
    requires { IsAcceptedProduct product.now }
    ensures net { IfOk result (IsNetOfProduct product.now) }
    ensures fits { IfOk result (FitsInEachMode (Multiply product.now)) }
{
    // The output is as wide as the heap and the zeros below it.
    products_have_width();
    let cut = cut_of(product);
    let Work { mut net, mut heap } = products(alloc, product, cut.columns)?;
    heap.add_constant(constant(product, cut));
    let counted = count_if(alloc, product.compressor.has_counters(), heap, &mut net)?;
    let sum = compress(alloc, counted, &mut net)?;
    let node = above_zeros(
        alloc,
        &mut net,
        sum,
        heap_width(product),
        zeros_below(product),
    )?;
    let low = bits_below(product);
    let high = low + product.output().width - 1;
    net.output("y", Slice { node, high, low })?;
    Ok(net)
}
