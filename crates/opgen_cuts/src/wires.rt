//! The bits of a wire, by the bits of the nodes that it reads.
ghost use Rattle.std.specs.Prelude.{◌≡◌, ◌++◌, IfOk, OnOk};
ghost use Rattle.opgen_design.specs.Plain.{plain, plain_all};
ghost use Rattle.opgen_cuts.specs.Wires.{bits_at, bits_of_part, constant_bit, constant_bits, operand_bits, wire_bits};

use opgen_list::Items;
use opgen_net::{Expr, WordBit};
use opgen_num::Word;
use std::alloc::{AllocError, Global};

fn constant_bit(bit: bool) -> WordBit
    ensures { result ≡ constant_bit bit }
{
    if bit { WordBit::One } else { WordBit::Zero }
}

// The bits of a constant, the highest first.
fn constant_bits(alloc: Global, word: Word) -> Result<Vec<WordBit>, AllocError>
    ensures { IfOk result (λ bits. bits.items ≡ constant_bits word) }
{
    let mut bits = Vec::new(alloc);
    let mut rest = word.bits();
    'places: for place in 0..word.width() {
        bits.push(constant_bit(rest % 2 == 1))?;
        rest /= 2;
    }
    bits.reverse();
    Ok(bits)
}

/// The bits of a node, by those of each node.
pub(crate) fn bits_at(given: &[Items<WordBit>], node: usize) -> &[WordBit]
    ensures { result.now ≡ bits_at given.now node }
{
    match given.get(node) {
        Some(bits) => bits.as_slice(),
        None => &[],
    }
}

// The bits high to low of a word whose bits are given, the highest first.
fn bits_of_part(given: &[WordBit], high: u32, low: u32) -> &[WordBit]
    ensures { result.now ≡ bits_of_part high low given.now }
{
    let end = high as usize + 1;
    let rest = &given[given.len().saturating_sub(end)..];
    &rest[..end.saturating_sub(low as usize).min(rest.len())]
}

// Appends further bits.
fn push_all(bits: &mut Items<WordBit>, more: &[WordBit]) -> Result<(), AllocError>
    ensures { OnOk result (bits.new ≡ bits.old ++ more.now) }
{
    'more: for bit in more {
        bits.push(*bit)?;
    }
    Ok(())
}

// Appends the bits of a wire, the highest first.
#[cycle(wire)]
fn push_wire(
    alloc: Global,
    bits: &mut Items<WordBit>,
    given: &[Items<WordBit>],
    expr: &Expr,
) -> Result<(), AllocError>
    ensures { OnOk result (bits.new ≡ bits.old ++ wire_bits given.now (plain expr.now)) }
{
    match expr {
        Expr::Name(node) => push_all(bits, bits_at(given, *node)),
        Expr::Part(slice) => push_all(
            bits,
            bits_of_part(bits_at(given, slice.node), slice.high, slice.low),
        ),
        Expr::Bits(word) => push_all(bits, &constant_bits(alloc, *word)?),
        Expr::Port(_) | Expr::Not(_) => Ok(()),
        Expr::Chain(_, operands) => push_operands(alloc, bits, given, operands),
    }
}

#[cycle(wire)]
fn push_operands(
    alloc: Global,
    bits: &mut Items<WordBit>,
    given: &[Items<WordBit>],
    exprs: &[Expr],
) -> Result<(), AllocError>
    ensures { OnOk result (bits.new ≡ bits.old ++ operand_bits given.now (plain_all exprs.now)) }
{
    for expr in exprs {
        push_wire(alloc, bits, given, expr)?;
    }
    Ok(())
}

/// The bits of a constant, the highest first.
pub(crate) fn bits_of_constant(alloc: Global, word: Word) -> Result<Items<WordBit>, AllocError>
    ensures { IfOk result (λ bits. bits ≡ constant_bits word) }
{
    Ok(Items::from_vec(constant_bits(alloc, word)?))
}

/// The bits of a wire, the highest first, by those of each node.
pub(crate) fn wire_bits(
    alloc: Global,
    given: &[Items<WordBit>],
    expr: &Expr,
) -> Result<Items<WordBit>, AllocError>
    ensures { IfOk result (λ bits. bits ≡ wire_bits given.now (plain expr.now)) }
{
    let mut bits = Items::new(alloc);
    push_wire(alloc, &mut bits, given, expr)?;
    Ok(bits)
}
