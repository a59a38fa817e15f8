//! The steps of Horner's rule as nodes: each multiplies the partial value by the input and adds the next coefficient.
ghost use Rattle.std.specs.Prelude.{◌≡◌, ◌≤◌, ◌<◌, ◌+◌, ◌-◌, length, slice_index, IfOk};
ghost use Rattle.opgen_net.specs.Valid.{IsValid, widths};
ghost use Rattle.opgen_net.specs.WordRule.{bits_from};
ghost use Rattle.opgen_kinds.specs.Poly.{IsPoly};
ghost use Rattle.opgen_poly.specs.Near.{IsPartial};
ghost use Rattle.opgen_poly.specs.Recipe.{first as first_of, summed as summed_of, stepped, partial_from, net_of_poly, heap_width as heap_width_of};

use crate::numbers::{added, heap_width, last_word, pairs};
use opgen_compress::compress;
use opgen_design::Slice;
use opgen_heap::Heap;
use opgen_list::Items;
use opgen_net::{Net, WordBit, push_bits};
use opgen_num::Memory;
use opgen_operator::Poly;
use opgen_partial::{Work, add_products};
use std::alloc::{AllocError, Global};

/// A net, and its node of the partial value of the coefficients from some place on.
#[derive(Drop)]
pub struct Partial {
    pub net: Net,
    pub node: usize,
}

// The input, and the last coefficient.
fn first(alloc: Global, poly: &Poly) -> Result<Partial, Memory>
    requires { IsPoly poly.now }
    ensures ok { IfOk result (λ r. r ≡ first_of poly.now) }
{
    let mut net = Net::new(alloc);
    let _x = net.input("x", poly.input.width)?;
    let node = net.constant(last_word(poly))?;
    Ok(Partial { net, node })
}

// The product of the partial value and the input, with the next coefficient above the bits that are cut off.
fn summed(alloc: Global, poly: &Poly, place: usize, partial: Partial) -> Result<Partial, Memory>
    requires poly { IsPoly poly.now }
    requires place { place + 1 < length poly.now.coefs }
    requires partial { IsPartial poly.now (place + 1) partial }
    ensures ok { IfOk result (λ r. r ≡ summed_of poly.now place partial) }
    ensures valid { IfOk result (λ r. IsValid r.net) }
    ensures width { IfOk result (λ r. slice_index (widths r.net.nodes) r.node ≡ heap_width_of poly.now place) }
{
    let products = pairs(poly, place, partial.node);
    let mut work = Work {
        net: partial.net,
        heap: Heap::new(alloc, heap_width(poly, place)),
    };
    add_products(alloc, &products, &mut work)?;
    let Work { mut net, mut heap } = work;
    heap.add_constant(added(poly, place, &products));
    let node = compress(alloc, heap, &mut net)?;
    Ok(Partial { net, node })
}

// So many bits of a node from a place up, the highest first.
fn upper_bits(
    alloc: Global,
    node: usize,
    low: u32,
    count: u32,
) -> Result<Items<WordBit>, AllocError>
    requires { low + count ≤ 70 }
    ensures { IfOk result (λ bits. bits ≡ bits_from node low count) }
{
    let mut bits = Items::new(alloc);
    push_bits(&mut bits, node, low, count)?;
    Ok(bits)
}

// The next partial value: the sum without the bits that are cut off.
fn step(alloc: Global, poly: &Poly, place: usize, partial: Partial) -> Result<Partial, Memory>
    requires poly { IsPoly poly.now }
    requires some { 1 ≤ place }
    requires place { place + 1 < length poly.now.coefs }
    requires partial { IsPartial poly.now (place + 1) partial }
    ensures ok { IfOk result (λ r. r ≡ stepped poly.now place partial) }
{
    let Partial { mut net, node } = summed(alloc, poly, place, partial)?;
    let bits = upper_bits(alloc, node, poly.input.width, poly.partial_width(place))?;
    let node = net.word(bits.as_slice())?;
    Ok(Partial { net, node })
}

// The partial value of all coefficients but the first.
fn partials(alloc: Global, poly: &Poly) -> Result<Partial, Memory>
    requires { IsPoly poly.now }
    ensures ok { IfOk result (λ r. r ≡ partial_from poly.now 1) }
{
    let mut partial = first(alloc, poly)?;
    let last = poly.coefs.len() - 1;
    'places: for k in 0..last - 1 {
        partial = step(alloc, poly, last - 1 - k, partial)?;
    }
    Ok(partial)
}

/// The net of a polynomial.
pub fn polynomial_net(alloc: Global, poly: &Poly) -> Result<Net, Memory>
    requires { IsPoly poly.now }
    ensures net { IfOk result (λ net. net ≡ net_of_poly poly.now) }
{
    let partial = partials(alloc, poly)?;
    let Partial { mut net, node } = summed(alloc, poly, 0, partial)?;
    let low = poly.input.width + poly.guard_bits();
    let high = low + poly.output().width - 1;
    net.output("y", Slice { node, high, low })?;
    Ok(net)
}
