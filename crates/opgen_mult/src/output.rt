//! The output of a product: the bits of its sum, with zeros below them if the product is shifted up.
ghost use Rattle.std.specs.Prelude.{◌≡◌, ◌≤◌, ◌+◌, ◌++◌, IfOk, OnOk, replicate, slice_index};
ghost use Rattle.opgen_net.specs.declared.word_bits.WordBit.TheVariants.{Zero};
ghost use Rattle.opgen_net.specs.Valid.{IsValid, widths};
ghost use Rattle.opgen_design.specs.Value.{IsWidth};
ghost use Rattle.opgen_net.specs.WordRule.{bits_from};
ghost use Rattle.opgen_mult.specs.Recipe.{above_zeros};
ghost use Rattle.opgen_mult.specs.Shifted.{IsAboveZeros};

use opgen_list::Items;
use opgen_net::{Net, WordBit, push_bits, push_zeros};
use opgen_num::Memory;
use std::alloc::{AllocError, Global};

// The lowest bits of a node above zeros, the highest first.
fn bits_above_zeros(
    alloc: Global,
    node: usize,
    width: u32,
    zeros: u32,
) -> Result<Items<WordBit>, AllocError>
    ensures { IfOk result (λ bits. bits ≡ bits_from node 0 width ++ replicate zeros Zero) }
{
    let mut bits = Items::new(alloc);
    push_bits(&mut bits, node, 0, width)?;
    push_zeros(&mut bits, zeros)?;
    Ok(bits)
}

/// The node that has the bits of a node above zeros: the same node where there are none.
pub(crate) fn above_zeros(
    alloc: Global,
    net: &mut Net,
    node: usize,
    width: u32,
    zeros: u32,
) -> Result<usize, Memory>
    requires net { IsValid net.old }
    requires node { slice_index (widths net.old.nodes) node ≡ width }
    requires some { 1 ≤ width }
    requires width { IsWidth (width + zeros) }
    ensures ok { OnOk result (net.new ≡ (above_zeros width zeros (record { net = net.old; place = node })).net) }
    ensures place { IfOk result (λ n. n ≡ (above_zeros width zeros (record { net = net.old; place = node })).place) }
    ensures width { IfOk result (λ n. slice_index (widths net.new.nodes) n ≡ width + zeros) }
    ensures shifted { IfOk result (λ n. IsAboveZeros net.old node zeros net.new.nodes n) }
    ensures valid { IsValid net.new }
{
    if zeros == 0 {
        return Ok(node);
    }
    let bits = bits_above_zeros(alloc, node, width, zeros)?;
    let shifted = net.word(bits.as_slice())?;
    Ok(shifted)
}
