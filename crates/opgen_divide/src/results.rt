//! Puts their signs to the quotient and the remainder of absolute values.
ghost use Rattle.std.specs.Prelude.{◌≡◌, ◌≤◌, ◌+◌, All, IfOk, OnOk, length};
ghost use Rattle.opgen_num.specs.declared.format.TheConstants.{MAX_WIDTH};
ghost use Rattle.opgen_design.specs.Plain.{plain};
ghost use Rattle.opgen_design.specs.Value.{IsWidth};
ghost use Rattle.opgen_net.specs.Valid.{IsValid, widths};
ghost use Rattle.opgen_net.specs.WordRule.{IsThere, bits_from};
ghost use Rattle.opgen_kinds.specs.Pair.{sign_bit};
ghost use Rattle.opgen_digits.specs.Digit.{known_in};
ghost use Rattle.opgen_digits.specs.Results.{AreResults};
ghost use Rattle.opgen_divide.specs.Recipe.{signs_differ, with_quotient, with_remainder, with_signs};
ghost use Rattle.opgen_divide.specs.Inputs.{HasInputs};

use crate::sign::{sign_of, signed_bits};
use opgen_digits::{Digits, push_all};
use opgen_list::Items;
use opgen_net::{Class, Expr, Net, Op, WordBit};
use opgen_num::Memory;
use opgen_operator::Pair;
use std::alloc::{AllocError, Global};

// Whether one of the inputs is below 0, and not both.
fn signs_differ(alloc: Global, pair: &Pair) -> Result<Expr, AllocError>
    requires a { 1 ≤ pair.now.a.width }
    requires b { 1 ≤ pair.now.b.width }
    ensures { IfOk result (λ e. plain e ≡ signs_differ pair.now) }
{
    let mut operands = Vec::new(alloc);
    operands.push(sign_of(0, pair.a.width))?;
    operands.push(sign_of(1, pair.b.width))?;
    Ok(Expr::Chain(Op::Xor, operands))
}

// The bits of the quotient that has these digits, or of the opposite number if exactly one input is below 0.
fn signed_quotient(
    alloc: Global,
    pair: &Pair,
    net: &mut Net,
    digits: &[WordBit],
) -> Result<Items<WordBit>, Memory>
    requires net { IsValid net.old }
    requires inputs { HasInputs pair.now net.old }
    requires few { length digits.now + 1 ≤ MAX_WIDTH }
    requires there { All (IsThere (widths net.old.nodes)) digits.now }
    ensures ok { OnOk result (net.new ≡ (with_quotient pair.now net.old digits.now).net) }
    ensures bits { IfOk result (λ bits. bits ≡ bits_from (with_quotient pair.now net.old digits.now).place 0 (length digits.now + 1)) }
    ensures valid { IsValid net.new }
{
    let mut bits = Items::new(alloc);
    bits.push(WordBit::Zero)?;
    push_all(&mut bits, digits)?;
    let sign = net.cells(Class::Logic, 1, signs_differ(alloc, pair)?)?;
    signed_bits(alloc, net, sign, bits.as_slice())
}

// The bits of the remainder that has these bits, or of the opposite number if the dividend is below 0.
fn signed_remainder(
    alloc: Global,
    pair: &Pair,
    net: &mut Net,
    rest: &[WordBit],
) -> Result<Items<WordBit>, Memory>
    requires net { IsValid net.old }
    requires inputs { HasInputs pair.now net.old }
    requires width { IsWidth (length rest.now) }
    requires there { All (IsThere (widths net.old.nodes)) rest.now }
    ensures ok { OnOk result (net.new ≡ (with_remainder pair.now net.old rest.now).net) }
    ensures bits { IfOk result (λ bits. bits ≡ bits_from (with_remainder pair.now net.old rest.now).place 0 (length rest.now)) }
    ensures valid { IsValid net.new }
{
    let sign = net.cells(Class::Wire, 1, sign_of(0, pair.a.width))?;
    signed_bits(alloc, net, sign, rest)
}

/// The results of signed inputs with their signs; those of unsigned ones stay.
///
/// If memory runs out, the net is valid.
pub fn with_signs(
    alloc: Global,
    pair: &Pair,
    net: &mut Net,
    digits: Digits,
) -> Result<Digits, Memory>
    requires net { IsValid net.old }
    requires inputs { HasInputs pair.now net.old }
    requires few { length digits.known + sign_bit pair.now.a.signed ≤ MAX_WIDTH }
    requires results { AreResults pair.now.exact (known_in net.old digits) }
    ensures ok { IfOk result (λ d. with_signs pair.now (known_in net.old digits) ≡ known_in net.new d) }
    ensures valid { IsValid net.new }
{
    if !pair.a.signed {
        return Ok(digits);
    }
    let known = signed_quotient(alloc, pair, net, digits.known.as_slice())?;
    let mut rest = Items::new(alloc);
    if pair.exact {
        rest = signed_remainder(alloc, pair, net, digits.rest.as_slice())?;
    }
    Ok(Digits { known, rest })
}
