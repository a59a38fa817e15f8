//! Multiples of the input that nodes of a net have: looks one up, shifts it, and extends it to a width.
ghost use Rattle.std.specs.Prelude.{◌≡◌, ◌≤◌, ◌++◌, replicate, Contains, IfOk, OnOk};
ghost use Rattle.opgen_num.specs.declared.format.TheConstants.{MAX_WIDTH};
ghost use Rattle.opgen_net.specs.Valid.{IsValid};
ghost use Rattle.opgen_design.specs.Value.{IsWidth};
ghost use Rattle.opgen_net.specs.Placed.{with_bits};
ghost use Rattle.opgen_graph.specs.Placing.{IsNode, factors};
ghost use Rattle.opgen_graph.specs.Recipe.{multiple_of as multiple_with, top_bit as top_of, extended as extension, operand as bits_of};

use opgen_list::Items;
use opgen_net::{Net, WordBit, push_bits, push_zeros};
use opgen_num::Memory;
use std::alloc::{AllocError, Global};

/// A node that has the input times a factor, and its width.
#[derive(Clone, Copy, Debug)]
pub struct Multiple {
    pub factor: u32,
    pub node: usize,
    pub width: u32,
}

/// The multiple by a factor.
pub fn multiple_of(known: &[Multiple], factor: u32) -> Multiple
    requires { Contains (factors known.now) factor }
    ensures { result ≡ multiple_with known.now factor }
{
    let mut place = 0;
    'known: while known[place].factor != factor {
        place += 1;
    }
    known[place]
}

// The bit that a multiple goes on with above its highest.
fn top_bit(signed: bool, of: Multiple) -> WordBit
    requires { 1 ≤ of.width }
    ensures { result ≡ top_of signed of }
{
    if signed {
        WordBit::Of {
            node: of.node,
            index: of.width - 1,
        }
    } else {
        WordBit::Zero
    }
}

// Appends a bit so many times.
fn push_copies(bits: &mut Items<WordBit>, bit: WordBit, count: u32) -> Result<(), AllocError>
    ensures { OnOk result (bits.new ≡ bits.old ++ replicate count bit) }
{
    'copies: for k in 0..count {
        bits.push(bit)?;
    }
    Ok(())
}

// The bits of a multiple above zeros, and so many bits above its highest.
fn extended(
    alloc: Global,
    signed: bool,
    zeros: u32,
    width: u32,
    of: Multiple,
) -> Result<Items<WordBit>, AllocError>
    requires { 1 ≤ of.width }
    ensures { IfOk result (λ bits. bits ≡ extension signed zeros width of) }
{
    let mut bits = Items::new(alloc);
    push_copies(&mut bits, top_bit(signed, of), width)?;
    push_bits(&mut bits, of.node, 0, of.width)?;
    push_zeros(&mut bits, zeros)?;
    Ok(bits)
}

/// Gives a multiple as an operand of a width: above zeros, and extended or cut.
pub fn operand(
    alloc: Global,
    net: &mut Net,
    signed: bool,
    zeros: u32,
    width: u32,
    of: Multiple,
) -> Result<usize, Memory>
    requires net { IsValid net.old }
    requires width { IsWidth width }
    requires node { IsNode net.old of }
    requires few { zeros ≤ MAX_WIDTH }
    ensures ok { OnOk result (net.new ≡ (with_bits net.old (bits_of signed zeros width of)).net) }
    ensures place { IfOk result (λ n. n ≡ (with_bits net.old (bits_of signed zeros width of)).place) }
    ensures valid { IsValid net.new }
{
    let bits = extended(alloc, signed, zeros, width, of)?;
    let (_, lowest) = bits.as_slice().split_at((of.width + zeros) as usize);
    net.word(lowest)
}
