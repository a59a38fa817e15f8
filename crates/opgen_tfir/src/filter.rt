//! Builds the net of a transposed filter from the adder graph of its taps.
ghost use Rattle.std.specs.Prelude.{◌≡◌, ◌≤◌, ◌^◌, false, IfOk};
ghost use Rattle.opgen_net.specs.Valid.{IsValid};
ghost use Rattle.opgen_operator.specs.declared.operator.Operator.TheVariants.{Tfir};
ghost use Rattle.opgen_operator.specs.Fits.{FitsInEachMode};
ghost use Rattle.opgen_kinds.specs.Taps.{IsAcceptedTaps};
ghost use Rattle.opgen_graph.specs.Recipe.{with_input};
ghost use Rattle.opgen_graph.specs.Served.{Serves};
ghost use Rattle.opgen_tfir.specs.Recipe.{all_zero as all_zero_of, half_unit as half_of, low_bits as low_of, with_multiples, products_of, net_of_taps};
ghost use Rattle.opgen_tfir.specs.Sums.{HasSums};

use crate::products::Products;
use crate::sums::{all_zero, place_sum};
use opgen_graph::{Graph, Multiple, input_net, parts, place_adders, place_parts};
use opgen_list::Items;
use opgen_net::{Net, Slice};
use opgen_num::{Memory, Word};
use opgen_operator::Taps;
use opgen_ports::shifts::places_down;
use std::alloc::Global;

// How many bits of the sum lie below the output's last place.
fn low_bits(taps: &Taps) -> u32
    requires { IsAcceptedTaps taps.now }
    ensures value { result ≡ low_of taps.now }
    ensures few { result ≤ 48 }
{
    places_down(taps.shift())
}

// Half a unit of the output's last place, or 0 where no bit lies below it.
fn half_unit(low: u32) -> u64
    requires { low ≤ 48 }
    ensures value { result ≡ half_of low }
    ensures small { result ≤ 2 ^ 47 }
{
    if low == 0 {
        return 0;
    }
    1 << (low - 1)
}

// The nodes of the odd parts of the taps, by the graph.
fn place_multiples(
    alloc: Global,
    net: &mut Net,
    taps: &Taps,
    graph: &Graph,
) -> Result<Items<Multiple>, Memory>
    requires taps { IsAcceptedTaps taps.now }
    requires graph { Serves taps.now.taps graph.now }
    requires net { net.old ≡ with_input taps.now.input }
    requires valid { IsValid net.old }
    ensures ok { IfOk result (λ known. record { net = net.new; known = known } ≡ with_multiples taps.now graph.now) }
    ensures valid { IfOk result (λ known. IsValid net.new) }
{
    let known = place_adders(alloc, net, taps.input, graph.adders.as_slice())?;
    let parts = parts(alloc, taps.taps.as_slice())?;
    place_parts(alloc, net, taps.input, known.as_slice(), parts.as_slice())
}

// What the sums of a filter are made of.
fn place_products(
    alloc: Global,
    net: &mut Net,
    taps: &Taps,
    graph: &Graph,
) -> Result<Products, Memory>
    requires taps { IsAcceptedTaps taps.now }
    requires graph { Serves taps.now.taps graph.now }
    requires net { net.old ≡ with_input taps.now.input }
    requires valid { IsValid net.old }
    ensures net { IfOk result (λ p. net.new ≡ (with_multiples taps.now graph.now).net) }
    ensures products { IfOk result (λ p. p ≡ products_of taps.now graph.now) }
    ensures valid { IfOk result (λ p. IsValid net.new) }
{
    let low = low_bits(taps);
    let parts = place_multiples(alloc, net, taps, graph)?;
    Ok(Products {
        input: taps.input,
        width: low + taps.output().width,
        narrow: !taps.searched,
        half: half_unit(low),
        parts,
    })
}

/// The net of a transposed filter with whole taps: input `x`, and output `y`.
///
/// The adders of the graph make the input times each odd part of the taps. From the last tap down,
/// the sum of the taps so far is delayed by a cycle, and the product of the next tap is added to it
/// or taken off it. Where the output has fewer places than the sum, half a unit stands in the sums,
/// and the lowest bits are left out.
pub fn build(alloc: Global, taps: &Taps, graph: &Graph) -> Result<Net, Memory>
    requires taps { IsAcceptedTaps taps.now }
    requires graph { Serves taps.now.taps graph.now }
    ensures net { IfOk result (λ net. net ≡ net_of_taps taps.now graph.now) }
    ensures sums { IfOk result (HasSums taps.now graph.now) }
    ensures fits { IfOk result (FitsInEachMode (Tfir taps.now)) }
{
    let mut net = input_net(alloc, taps.input)?;
    if all_zero(taps.taps.as_slice()) {
        let node = net.constant(Word::new(0, 1))?;
        net.output(
            "y",
            Slice {
                node,
                high: 0,
                low: 0,
            },
        )?;
        return Ok(net);
    }
    let products = place_products(alloc, &mut net, taps, graph)?;
    let node = place_sum(alloc, &mut net, &products, taps.taps.as_slice())?;
    let low = low_bits(taps);
    let high = low + taps.output().width - 1;
    net.output("y", Slice { node, high, low })?;
    Ok(net)
}
