//! The chain of sums of a transposed filter, from the last tap to the first, with a delay between neighbouring taps.
ghost use Rattle.std.specs.Prelude.{◌≡◌, ◌≢◌, ◌+◌, ◌<◌, ◌^◌, pos, drop, false, length, get_or, All, OnOk, IfOk, slice_index};
ghost use Rattle.opgen_num.specs.declared.limits.TheConstants.{MAX_CONSTANT};
ghost use Rattle.opgen_design.specs.Plain.{plain};
ghost use Rattle.opgen_design.specs.Value.{IsWidth};
ghost use Rattle.opgen_net.specs.Valid.{IsValid, widths};
ghost use Rattle.opgen_ports.specs.Ranges.{IsWithin};
ghost use Rattle.opgen_graph.specs.Placing.{HasOddPart};
ghost use Rattle.opgen_tfir.specs.Recipe.{all_zero as all_zero_of, result as result_of, joined as joined_of, widened as widened_of, with_product, first_product as first_product_of, sum_width as sum_width_of, own_format as own_format_of, with_tap, with_taps};
ghost use Rattle.opgen_tfir.specs.Steps.{HasProducts, IsLast, AreTaps};

use crate::products::{Products, own_format, sum_width};
use opgen_graph::{Multiple, chain, constant_node, magnitude, operand};
use opgen_net::{Class, Expr, Net, Op};
use opgen_num::{Memory, Word};
use std::alloc::{AllocError, Global};

/// Whether all taps are 0.
pub(crate) fn all_zero(taps: &[i64]) -> bool
    ensures { result ≡ all_zero_of taps.now }
{
    'taps: for tap in taps {
        if tap.unsigned_abs() != 0 {
            return false;
        }
    }
    true
}

// The place of the last tap that is not 0, or the first place where all are 0.
fn last_tap(taps: &[i64]) -> usize
    requires some { 0 < length taps.now }
    requires small { All (IsWithin MAX_CONSTANT) taps.now }
    ensures { IsLast taps.now result }
{
    let mut last = taps.len() - 1;
    'zeros: while last > 0 && taps[last].unsigned_abs() == 0 {
        last -= 1;
    }
    last
}

// Gives a node in another width.
fn widened(
    alloc: Global,
    net: &mut Net,
    signed: bool,
    from: u32,
    to: u32,
    node: usize,
) -> Result<usize, Memory>
    requires net { IsValid net.old }
    requires from { IsWidth from }
    requires to { IsWidth to }
    requires node { slice_index (widths net.old.nodes) node ≡ from }
    ensures ok { OnOk result (net.new ≡ (widened_of signed from to (record { net = net.old; place = node })).net) }
    ensures place { IfOk result (λ n. n ≡ (widened_of signed from to (record { net = net.old; place = node })).place) }
    ensures valid { IsValid net.new }
{
    if from == to {
        return Ok(node);
    }
    let own = Multiple {
        factor: 1,
        node,
        width: from,
    };
    operand(alloc, net, signed, 0, to, own)
}

// The sum of two nodes, or their difference.
fn result(alloc: Global, negative: bool, a: usize, b: usize) -> Result<Expr, AllocError>
    ensures { IfOk result (λ e. plain e ≡ result_of negative a b) }
{
    if negative {
        chain(alloc, Op::Minus, a, b)
    } else {
        chain(alloc, Op::Plus, a, b)
    }
}

// Adds a product to a node, or takes it off.
fn joined(
    alloc: Global,
    net: &mut Net,
    negative: bool,
    width: u32,
    node: usize,
    product: usize,
) -> Result<usize, Memory>
    requires net { IsValid net.old }
    requires width { IsWidth width }
    requires node { slice_index (widths net.old.nodes) node ≡ width }
    requires product { slice_index (widths net.old.nodes) product ≡ width }
    ensures ok { OnOk result (net.new ≡ (joined_of negative width node (record { net = net.old; place = product })).net) }
    ensures place { IfOk result (λ n. n ≡ (joined_of negative width node (record { net = net.old; place = product })).place) }
    ensures valid { IsValid net.new }
{
    net.cells(Class::Add, width, result(alloc, negative, node, product)?)
}

// Adds the product of a tap to a node, or takes it off where the tap is below 0.
fn add_product(
    alloc: Global,
    net: &mut Net,
    products: &Products,
    width: u32,
    tap: i64,
    node: usize,
) -> Result<usize, Memory>
    requires net { IsValid net.old }
    requires products { HasProducts net.old products.now }
    requires width { IsWidth width }
    requires small { IsWithin MAX_CONSTANT tap }
    requires odd { HasOddPart products.now.parts tap }
    requires node { slice_index (widths net.old.nodes) node ≡ width }
    ensures ok { OnOk result (net.new ≡ (with_product products.now width tap (record { net = net.old; place = node })).net) }
    ensures place { IfOk result (λ n. n ≡ (with_product products.now width tap (record { net = net.old; place = node })).place) }
    ensures valid { IsValid net.new }
{
    if tap == 0 {
        return Ok(node);
    }
    let signed = products.input.signed;
    let parts = products.parts.as_slice();
    let size = tap.unsigned_abs() as u32;
    let product = magnitude(alloc, net, signed, width, parts, size)?;
    joined(alloc, net, tap < 0, width, node, product)
}

// Makes the product of the last tap other than 0, with half a unit where the filter has one.
fn first_product(
    alloc: Global,
    net: &mut Net,
    products: &Products,
    width: u32,
    tap: i64,
) -> Result<usize, Memory>
    requires net { IsValid net.old }
    requires products { HasProducts net.old products.now }
    requires width { IsWidth width }
    requires half { products.now.half < 2 ^ width }
    requires small { IsWithin MAX_CONSTANT tap }
    requires odd { HasOddPart products.now.parts tap }
    ensures ok { OnOk result (net.new ≡ (first_product_of products.now width net.old tap).net) }
    ensures place { IfOk result (λ n. n ≡ (first_product_of products.now width net.old tap).place) }
    ensures valid { IsValid net.new }
{
    if products.half == 0 {
        let parts = products.parts.as_slice();
        return constant_node(alloc, net, products.input.signed, width, parts, tap);
    }
    let half = net.constant(Word::new(u128::from(products.half), width))?;
    add_product(alloc, net, products, width, tap, half)
}

// Makes the sum from the tap at a place on, by that from the next tap on.
fn next_sum(
    alloc: Global,
    net: &mut Net,
    products: &Products,
    taps: &[i64],
    place: usize,
    sum: usize,
) -> Result<usize, Memory>
    requires net { IsValid net.old }
    requires products { HasProducts net.old products.now }
    requires taps { AreTaps products.now taps.now }
    requires place { place + 1 < length taps.now }
    requires sum { slice_index (widths net.old.nodes) sum ≡ sum_width_of products.now (drop (place + 1) taps.now) }
    ensures ok { OnOk result (net.new ≡ (with_tap products.now (get_or taps.now place (pos 0)) (drop (place + 1) taps.now)
        (record { net = net.old; place = sum })).net) }
    ensures place { IfOk result (λ n. n ≡ (with_tap products.now (get_or taps.now place (pos 0)) (drop (place + 1) taps.now)
        (record { net = net.old; place = sum })).place) }
    ensures valid { IsValid net.new }
{
    let later = &taps[place + 1..];
    let width = sum_width(products, &taps[place..]);
    let from = sum_width(products, later);
    let signed = own_format(products, later).signed;
    let delayed = net.delay(sum)?;
    let wider = widened(alloc, net, signed, from, width, delayed)?;
    add_product(alloc, net, products, width, taps[place], wider)
}

// Makes the sum from the first tap on, by those from the later taps on, each a cycle later.
fn place_taps(
    alloc: Global,
    net: &mut Net,
    products: &Products,
    taps: &[i64],
) -> Result<usize, Memory>
    requires net { IsValid net.old }
    requires products { HasProducts net.old products.now }
    requires some { all_zero_of taps.now ≡ false }
    requires taps { AreTaps products.now taps.now }
    ensures ok { OnOk result (net.new ≡ (with_taps products.now net.old taps.now).net) }
    ensures place { IfOk result (λ n. n ≡ (with_taps products.now net.old taps.now).place) }
    ensures valid { OnOk result (IsValid net.new) }
{
    let last = last_tap(taps);
    let width = sum_width(products, &taps[last..]);
    let mut sum = first_product(alloc, net, products, width, taps[last])?;
    'taps: for place in (0..last).rev() {
        sum = next_sum(alloc, net, products, taps, place, sum)?;
    }
    Ok(sum)
}

/// Makes the sum of all taps, in its whole width.
pub(crate) fn place_sum(
    alloc: Global,
    net: &mut Net,
    products: &Products,
    taps: &[i64],
) -> Result<usize, Memory>
    requires net { IsValid net.old }
    requires products { HasProducts net.old products.now }
    requires some { all_zero_of taps.now ≡ false }
    requires taps { AreTaps products.now taps.now }
    ensures ok { OnOk result (net.new ≡ (widened_of (own_format_of products.now taps.now).signed (sum_width_of products.now taps.now)
        products.now.width (with_taps products.now net.old taps.now)).net) }
    ensures place { IfOk result (λ n. n ≡ (widened_of (own_format_of products.now taps.now).signed (sum_width_of products.now taps.now)
        products.now.width (with_taps products.now net.old taps.now)).place) }
    ensures valid { OnOk result (IsValid net.new) }
{
    let sum = place_taps(alloc, net, products, taps)?;
    let signed = own_format(products, taps).signed;
    let from = sum_width(products, taps);
    widened(alloc, net, signed, from, products.width, sum)
}
