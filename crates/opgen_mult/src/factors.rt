//! The two factors as inputs of a net, and their partial products in a bit heap.
ghost use Rattle.std.specs.Prelude.{◌≡◌, IfOk};
ghost use Rattle.opgen_net.specs.Valid.{IsValid};
ghost use Rattle.opgen_kinds.specs.Product.{IsAcceptedProduct};
ghost use Rattle.opgen_partial.specs.Law.{HasProducts};
ghost use Rattle.opgen_mult.specs.Recipe.{first, second, pairs, inputs, products};

use crate::places::heap_width;
use opgen_heap::Heap;
use opgen_net::Net;
use opgen_num::Memory;
use opgen_operator::Product;
use opgen_partial::{Factor, Products, Work, add_products};
use std::alloc::Global;

/// The first factor, which is node 0.
pub(crate) fn first(product: &Product) -> Factor
    ensures { result ≡ first product.now }
{
    Factor {
        node: 0,
        width: product.a.width,
        signed: product.a.signed,
    }
}

/// The second factor, which is node 1.
pub(crate) fn second(product: &Product) -> Factor
    ensures { result ≡ second product.now }
{
    Factor {
        node: 1,
        width: product.b.width,
        signed: product.b.signed,
    }
}

// The inputs, and a heap with no bit.
fn inputs(alloc: Global, product: &Product) -> Result<Work, Memory>
    requires { IsAcceptedProduct product.now }
    ensures ok { IfOk result (λ work. work ≡ inputs product.now) }
    ensures net { IfOk result (λ work. IsValid work.net) }
{
    let mut net = Net::new(alloc);
    let _a = net.input("a", product.a.width)?;
    let _b = net.input("b", product.b.width)?;
    Ok(Work {
        net,
        heap: Heap::new(alloc, heap_width(product)),
    })
}

/// The inputs, and the products of their bits in the heap's columns from `left_out` on.
pub(crate) fn products(alloc: Global, product: &Product, left_out: u32) -> Result<Work, Memory>
    requires { IsAcceptedProduct product.now }
    ensures ok { IfOk result (λ work. work ≡ products product.now left_out) }
    ensures products { IfOk result (λ work. HasProducts (pairs product.now left_out) (inputs product.now) work) }
{
    let mut work = inputs(alloc, product)?;
    let pairs = Products {
        a: first(product),
        b: second(product),
        left_out,
    };
    add_products(alloc, &pairs, &mut work)?;
    Ok(work)
}
