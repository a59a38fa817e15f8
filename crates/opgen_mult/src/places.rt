//! Numbers of a product's circuit: the width of its heap, the columns that are left out, and which bits go to the output.
ghost use Rattle.std.specs.Prelude.{◌≡◌, ◌≤◌, ◌+◌, ◌-◌, ◌^◌};
ghost use Rattle.opgen_num.specs.declared.format.TheConstants.{MAX_WIDTH};
ghost use Rattle.opgen_kinds.specs.Product.{IsAcceptedProduct};
ghost use Rattle.opgen_mult.specs.Recipe.{bits_below, zeros_below, heap_width, rounding, constant, IsLeftOut};

use crate::factors::{first, second};
use opgen_budget::{Cut, drop_columns};
use opgen_operator::{Product, products_have_width};
use opgen_partial::sign_correction;

/// How many bits of the product stand below the output's lowest.
pub(crate) fn bits_below(product: &Product) -> u32
    requires { IsAcceptedProduct product.now }
    ensures value { result ≡ bits_below product.now }
    ensures few { result ≤ 48 }
{
    let shift = product.shift();
    if shift < 0 { shift.unsigned_abs() } else { 0 }
}

/// How many zeros stand below the product's lowest bit.
pub(crate) fn zeros_below(product: &Product) -> u32
    requires { IsAcceptedProduct product.now }
    ensures value { result ≡ zeros_below product.now }
    ensures few { result ≤ 48 }
{
    let shift = product.shift();
    if shift < 0 { 0 } else { shift.unsigned_abs() }
}

/// The width of the heap of a product.
pub(crate) fn heap_width(product: &Product) -> u32
    requires { IsAcceptedProduct product.now }
    ensures value { result ≡ heap_width product.now }
    ensures some { 1 ≤ result }
    ensures few { result ≤ MAX_WIDTH }
{
    // Shifted up, the output is wider than the product by as many bits.
    products_have_width();
    product.output().width + bits_below(product) - zeros_below(product)
}

/// The lowest columns that are left out, and what rounds the product.
pub(crate) fn cut_of(product: &Product) -> Cut
    requires { IsAcceptedProduct product.now }
    ensures columns { IsLeftOut product.now.a.width product.now.b.width (bits_below product.now) result.columns }
    ensures constant { result.constant ≡ rounding (bits_below product.now) }
    ensures small { result.constant ≤ 2 ^ 48 }
{
    let below = bits_below(product);
    if below == 0 {
        return Cut {
            columns: 0,
            constant: 0,
        };
    }
    drop_columns(product.a.width, product.b.width, below)
}

/// What is added to the products of bits.
pub(crate) fn constant(product: &Product, cut: Cut) -> i128
    requires product { IsAcceptedProduct product.now }
    requires cut { cut.constant ≡ rounding (bits_below product.now) }
    requires small { cut.constant ≤ 2 ^ 48 }
    ensures { result ≡ constant product.now }
{
    sign_correction(first(product), second(product)) + cut.constant as i128
}
