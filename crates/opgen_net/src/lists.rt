//! Appends bits of a node, or zeros, to a list of bits.
ghost use Rattle.std.specs.Prelude.{◌≡◌, ◌+◌, ◌^◌, ◌<◌, ◌++◌, OnOk, replicate};
ghost use Rattle.opgen_net.specs.declared.word_bits.WordBit.TheVariants.{Zero};
ghost use Rattle.opgen_net.specs.WordRule.{bits_from};

use crate::word_bits::WordBit;
use opgen_list::Items;
use std::alloc::AllocError;

/// Appends so many bits of a node from a place up, the highest first.
pub fn push_bits(
    bits: &mut Items<WordBit>,
    node: usize,
    low: u32,
    count: u32,
) -> Result<(), AllocError>
    requires { low + count < 2 ^ 32 }
    ensures { OnOk result (bits.new ≡ bits.old ++ bits_from node low count) }
{
    let mut left = count;
    'bits: while left > 0 {
        left -= 1;
        bits.push(WordBit::Of {
            node,
            index: low + left,
        })?;
    }
    Ok(())
}

/// Appends so many zeros.
pub fn push_zeros(bits: &mut Items<WordBit>, count: u32) -> Result<(), AllocError>
    ensures { OnOk result (bits.new ≡ bits.old ++ replicate count Zero) }
{
    'zeros: for k in 0..count {
        bits.push(WordBit::Zero)?;
    }
    Ok(())
}
