//! The net of a square root: one digit for each two bits of the radicand, from the highest (de Dinechin and Kumm,
//! Application-Specific Arithmetic: restoring square root).
//!
//! Proved: For every root that a version accepts, the net is that of the recipe. After each step and at every time, the
//! radicand so far is the square of the root so far plus a rest of at most twice that root. The net fits the operator.
//!
//! By: `build`.
#![tactic(auto)]

ghost use Rattle.std.specs.Prelude.{◌≡◌, ◌+◌, ◌≤◌, [], ◌∷◌, ◌++◌, All, IfOk, OnOk, length};
ghost use Rattle.opgen_num.specs.declared.format.TheConstants.{MAX_WIDTH};
ghost use Rattle.opgen_net.specs.declared.word_bits.WordBit.TheVariants.{Zero, One};
ghost use Rattle.opgen_net.specs.Valid.{IsValid, widths};
ghost use Rattle.opgen_net.specs.WordRule.{IsThere};
ghost use Rattle.opgen_operator.specs.declared.operator.Operator.TheVariants.{Root};
ghost use Rattle.opgen_operator.specs.Fits.{FitsInEachMode};
ghost use Rattle.opgen_kinds.specs.Single.{IsAcceptedSingle, root_width};
ghost use Rattle.opgen_digits.specs.Digit.{known_in};
ghost use Rattle.opgen_sqrt.specs.Recipe.{with_input, radicand as radicand_of, stepped, after, net_of_single};
ghost use Rattle.opgen_sqrt.specs.Steps.{HoldsAfterEachStep};

use opgen_digits::{Digits, Trial, output_results, push_all, try_digit};
use opgen_list::Items;
use opgen_net::{Net, WordBit, push_bits, push_zeros};
use opgen_num::Memory;
use opgen_operator::Single;
use std::alloc::{AllocError, Global};

// The net of the input.
fn input(alloc: Global, single: &Single) -> Result<Net, Memory>
    requires { IsAcceptedSingle single.now }
    ensures net { IfOk result (λ net. net ≡ with_input single.now) }
    ensures valid { IfOk result IsValid }
{
    let mut net = Net::new(alloc);
    let _x = net.input("x", single.input.width)?;
    Ok(net)
}

// The bits of the input, with as many zeros below them as it is shifted up, and one above them
// where their number is odd.
fn radicand(alloc: Global, single: &Single) -> Result<Items<WordBit>, AllocError>
    requires { IsAcceptedSingle single.now }
    ensures { IfOk result (λ bits. bits ≡ radicand_of single.now) }
{
    let mut bits = Items::new(alloc);
    let shift = single.shift() as u32;
    push_zeros(&mut bits, (single.input.width + shift) % 2)?;
    push_bits(&mut bits, 0, 0, single.input.width)?;
    push_zeros(&mut bits, shift)?;
    Ok(bits)
}

// Two bits of the radicand.
#[derive(Clone, Copy)]
struct BitPair {
    high: WordBit,
    low: WordBit,
}

// What is left, two bits of the radicand below it and a zero above it.
fn minuend(alloc: Global, rest: &[WordBit], pair: BitPair) -> Result<Items<WordBit>, AllocError>
    ensures { IfOk result (λ bits. bits ≡ Zero ∷ (rest.now ++ pair.high ∷ pair.low ∷ [])) }
{
    let mut bits = Items::new(alloc);
    bits.push(WordBit::Zero)?;
    push_all(&mut bits, rest)?;
    bits.push(pair.high)?;
    bits.push(pair.low)?;
    Ok(bits)
}

// Four times the root so far and one, with two zeros above it.
fn subtrahend(alloc: Global, known: &[WordBit]) -> Result<Items<WordBit>, AllocError>
    ensures { IfOk result (λ bits. bits ≡ Zero ∷ Zero ∷ (known.now ++ Zero ∷ One ∷ [])) }
{
    let mut bits = Items::new(alloc);
    push_zeros(&mut bits, 2)?;
    push_all(&mut bits, known)?;
    bits.push(WordBit::Zero)?;
    bits.push(WordBit::One)?;
    Ok(bits)
}

// One step: the next two bits of the radicand.
fn step(
    alloc: Global,
    net: &mut Net,
    digits: &mut Digits,
    rest: u32,
    pair: BitPair,
    keep: bool,
) -> Result<(), Memory>
    requires net { IsValid net.old }
    requires some { 2 ≤ rest }
    requires few { rest + 2 ≤ MAX_WIDTH }
    requires rest { length digits.old.rest + 1 ≡ rest }
    requires known { length digits.old.known + 2 ≡ rest }
    requires there { All (IsThere (widths net.old.nodes)) (Zero ∷ (digits.old.rest ++ pair.high ∷ pair.low ∷ [])) }
    requires digits { All (IsThere (widths net.old.nodes)) digits.old.known }
    ensures ok { OnOk result (stepped keep rest (known_in net.old digits.old) pair.high pair.low ≡ known_in net.new digits.new) }
    ensures valid { IsValid net.new }
{
    let minuend = minuend(alloc, digits.rest.as_slice(), pair)?;
    let a = net.word(minuend.as_slice())?;
    let subtrahend = subtrahend(alloc, digits.known.as_slice())?;
    let b = net.word(subtrahend.as_slice())?;
    let trial = Trial {
        minuend: a,
        subtrahend: b,
        rest,
    };
    try_digit(alloc, net, digits, trial, keep)
}

// Takes the root: as many steps as it has digits.
fn root(
    alloc: Global,
    single: &Single,
    radicand: &[WordBit],
    net: &mut Net,
) -> Result<Digits, Memory>
    requires single { IsAcceptedSingle single.now }
    requires net { net.old ≡ with_input single.now }
    requires radicand { radicand.now ≡ radicand_of single.now }
    ensures ok { IfOk result (λ d. after single.now (root_width single.now) ≡ known_in net.new d) }
    ensures valid { IfOk result (λ d. IsValid net.new) }
{
    let mut digits = Digits {
        known: Items::new(alloc),
        rest: Items::new(alloc),
    };
    digits.rest.push(WordBit::Zero)?;
    let count = single.root().width;
    'steps: for k in 0..count {
        let place = 2 * k as usize;
        let keep = single.exact || k + 1 < count;
        let pair = BitPair {
            high: radicand[place],
            low: radicand[place + 1],
        };
        step(alloc, net, &mut digits, k + 2, pair, keep)?;
    }
    Ok(digits)
}

/// The net of the square root `y` of the input `x`, and where it is exact of the remainder `r`.
///
/// The digits of `y` are made from the highest down. For each one, four times the root so far and
/// one is taken off what the digits before have left, with the next two bits of the radicand below
/// it, and is put back where that was too much.
pub fn build(alloc: Global, single: &Single) -> Result<Net, Memory>
    requires { IsAcceptedSingle single.now }
    ensures net { IfOk result (λ net. net ≡ net_of_single single.now) }
    ensures steps { IfOk result (HoldsAfterEachStep single.now) }
    ensures fits { IfOk result (FitsInEachMode (Root single.now)) }
{
    let mut net = input(alloc, single)?;
    let radicand = radicand(alloc, single)?;
    let digits = root(alloc, single, radicand.as_slice(), &mut net)?;
    output_results(&mut net, "y", &digits, single.exact)?;
    Ok(net)
}
