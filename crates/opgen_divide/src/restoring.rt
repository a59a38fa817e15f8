//! Quotients whose steps subtract the divisor, and restore the number if that was too much.
ghost use Rattle.std.specs.Prelude.{◌≡◌, ◌+◌, ◌≤◌, [], ◌∷◌, ◌++◌, All, IfOk, OnOk, length, slice_index};
ghost use Rattle.opgen_num.specs.declared.format.TheConstants.{MAX_WIDTH};
ghost use Rattle.opgen_net.specs.declared.word_bits.WordBit.TheVariants.{Zero};
ghost use Rattle.opgen_net.specs.Valid.{IsValid, widths};
ghost use Rattle.opgen_net.specs.WordRule.{IsThere};
ghost use Rattle.opgen_kinds.specs.Pair.{IsAcceptedPair};
ghost use Rattle.opgen_digits.specs.Digit.{known_in};
ghost use Rattle.opgen_divide.specs.Recipe.{with_magnitudes, numerator as numerator_of, digit_count, with_divisor, stepped, after};

use opgen_digits::{Digits, Trial, push_all, try_digit};
use opgen_list::Items;
use opgen_net::{Net, WordBit, push_bits, push_zeros};
use opgen_num::Memory;
use opgen_operator::Pair;
use std::alloc::{AllocError, Global};

/// The divisor with two zeros above it.
pub fn divisor(alloc: Global, pair: &Pair, divisor: usize, net: &mut Net) -> Result<usize, Memory>
    requires pair { IsAcceptedPair pair.now }
    requires divisor { divisor ≡ (with_magnitudes pair.now).divisor }
    requires net { net.old ≡ (with_magnitudes pair.now).net }
    requires valid { IsValid net.old }
    ensures ok { OnOk result (net.new ≡ (with_divisor pair.now).net) }
    ensures place { IfOk result (λ n. n ≡ (with_divisor pair.now).place) }
    ensures valid { IsValid net.new }
{
    let mut bits = Items::new(alloc);
    push_zeros(&mut bits, 2)?;
    push_bits(&mut bits, divisor, 0, pair.b.width)?;
    net.word(bits.as_slice())
}

// What is left, a bit of the numerator below it and a zero above it.
fn minuend(alloc: Global, rest: &[WordBit], bit: WordBit) -> Result<Items<WordBit>, AllocError>
    ensures { IfOk result (λ bits. bits ≡ Zero ∷ (rest.now ++ bit ∷ [])) }
{
    let mut bits = Items::new(alloc);
    bits.push(WordBit::Zero)?;
    push_all(&mut bits, rest)?;
    bits.push(bit)?;
    Ok(bits)
}

// The node of the divisor with two zeros above it, and how many bits the divisor has.
#[derive(Clone, Copy)]
struct DivisorNode {
    node: usize,
    width: u32,
}

// One step: the next bit of the numerator.
fn step(
    alloc: Global,
    net: &mut Net,
    digits: &mut Digits,
    divisor: DivisorNode,
    bit: WordBit,
    keep: bool,
) -> Result<(), Memory>
    requires net { IsValid net.old }
    requires some { 1 ≤ divisor.width }
    requires few { divisor.width + 2 ≤ MAX_WIDTH }
    requires rest { length digits.old.rest ≡ divisor.width }
    requires there { All (IsThere (widths net.old.nodes)) (Zero ∷ (digits.old.rest ++ bit ∷ [])) }
    requires divisor { slice_index (widths net.old.nodes) divisor.node ≡ divisor.width + 2 }
    ensures ok { OnOk result (stepped keep divisor.width divisor.node (known_in net.old digits.old) bit
        ≡ known_in net.new digits.new) }
    ensures valid { IsValid net.new }
{
    let bits = minuend(alloc, digits.rest.as_slice(), bit)?;
    let minuend = net.word(bits.as_slice())?;
    let trial = Trial {
        minuend,
        subtrahend: divisor.node,
        rest: divisor.width,
    };
    try_digit(alloc, net, digits, trial, keep)
}

/// Divides: as many steps as the numerator has bits.
pub fn divide(
    alloc: Global,
    pair: &Pair,
    divisor: usize,
    numerator: &[WordBit],
    net: &mut Net,
) -> Result<Digits, Memory>
    requires pair { IsAcceptedPair pair.now }
    requires net { net.old ≡ (with_divisor pair.now).net }
    requires divisor { divisor ≡ (with_divisor pair.now).place }
    requires numerator { numerator.now ≡ numerator_of pair.now }
    ensures ok { IfOk result (λ d. after pair.now (digit_count pair.now) ≡ known_in net.new d) }
    ensures valid { IfOk result (λ d. IsValid net.new) }
{
    let mut digits = Digits {
        known: Items::new(alloc),
        rest: Items::new(alloc),
    };
    push_zeros(&mut digits.rest, pair.b.width)?;
    'steps: for k in 0..numerator.len() {
        let keep = pair.exact || k + 1 < numerator.len();
        step(
            alloc,
            net,
            &mut digits,
            DivisorNode {
                node: divisor,
                width: pair.b.width,
            },
            numerator[k],
            keep,
        )?;
    }
    Ok(digits)
}
