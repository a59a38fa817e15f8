//! All quotients of five bits by three, with their remainders, by an evaluator of nets of wires, logic and sums.
ghost use Rattle.std.specs.Prelude.{◌≡◌, ◌∷◌, [], IfOk};
ghost use Rattle.opgen_net.specs.declared.node.Node.TheVariants.{Input};
ghost use Rattle.opgen_net.specs.Valid.{IsValid};

use crate::{Divisor, divide};
use opgen_digits::Digits;
use opgen_list::Items;
use opgen_net::{Expr, Net, Node, Op, Slice, WordBit, push_bits};
use opgen_num::Memory;
use std::alloc::{AllocError, Global};
use std::test::Fail;

// A number and the number of its bits.
#[derive(Clone, Copy)]
struct Number {
    value: u128,
    width: u32,
}

const NONE: Number = Number { value: 0, width: 0 };

fn mask(width: u32) -> u128 {
    !u128::MAX.checked_shl(width).unwrap_or(0)
}

fn at(numbers: &[Number], node: usize) -> Number {
    numbers.get(node).copied().unwrap_or(NONE)
}

fn part(number: Number, slice: Slice) -> Number {
    let width = slice.high.wrapping_add(1).wrapping_sub(slice.low);
    Number {
        value: number.value.checked_shr(slice.low).unwrap_or(0) & mask(width),
        width,
    }
}

fn joined(op: Op, a: Number, b: Number) -> Number {
    let (value, width) = match op {
        Op::And => (a.value & b.value, a.width),
        Op::Or => (a.value | b.value, a.width),
        Op::Xor => (a.value ^ b.value, a.width),
        Op::Cat => (
            a.value.checked_shl(b.width).unwrap_or(0) | b.value,
            a.width.wrapping_add(b.width),
        ),
        Op::Plus => (a.value.wrapping_add(b.value), a.width),
        Op::Minus => (a.value.wrapping_sub(b.value), a.width),
    };
    Number {
        value: value & mask(width),
        width,
    }
}

#[cycle(evaluate)]
fn evaluate(expr: &Expr, numbers: &[Number]) -> Number {
    match expr {
        Expr::Name(node) => at(numbers, *node),
        Expr::Part(slice) => part(at(numbers, slice.node), *slice),
        Expr::Bits(word) => Number {
            value: word.bits,
            width: word.width,
        },
        Expr::Port(_) => NONE,
        Expr::Not(operand) => {
            let number = evaluate(operand, numbers);
            Number {
                value: !number.value & mask(number.width),
                width: number.width,
            }
        }
        Expr::Chain(op, operands) => evaluate_chain(*op, operands, numbers),
    }
}

#[cycle(evaluate)]
fn evaluate_chain(op: Op, operands: &[Expr], numbers: &[Number]) -> Number {
    let mut number = NONE;
    let mut first = true;
    for operand in operands {
        let next = evaluate(operand, numbers);
        number = if first {
            next
        } else {
            joined(op, number, next)
        };
        first = false;
    }
    number
}

// The numbers of a net's nodes, over the numbers of its inputs.
fn numbers_of(alloc: Global, net: &Net, inputs: &[u128]) -> Result<Vec<Number>, AllocError> {
    let mut numbers = Vec::new(alloc);
    for node in net.nodes.as_slice() {
        let number = match node {
            Node::Input { port, width } => Number {
                value: inputs.get(*port).copied().unwrap_or(0),
                width: *width,
            },
            Node::Constant(word) => Number {
                value: word.bits,
                width: word.width,
            },
            Node::Cells {
                class: _,
                width: _,
                expr,
            } => evaluate(expr.expr(), &numbers),
            Node::Choice { .. } | Node::Table { .. } | Node::Delay { .. } => NONE,
        };
        numbers.push(number)?;
    }
    Ok(numbers)
}

// The number of bits that are given from the highest.
fn number_of(bits: &[WordBit], numbers: &[Number]) -> u128 {
    let mut value = 0u128;
    for bit in bits {
        let low = match bit {
            WordBit::Zero => 0,
            WordBit::One => 1,
            WordBit::Of { node, index } => {
                at(numbers, *node).value.checked_shr(*index).unwrap_or(0) & 1
            }
        };
        value = value.wrapping_mul(2) | low;
    }
    value
}

// The net of a numerator of five bits, node 0, and a divisor of three, node 1.
fn inputs(alloc: Global) -> Result<Net, Memory>
    ensures nodes { IfOk result (λ net. net.nodes ≡ Input 0 5 ∷ Input 1 3 ∷ []) }
    ensures valid { IfOk result IsValid }
{
    let mut net = Net::new(alloc);
    net.input("a", 5)?;
    net.input("b", 3)?;
    Ok(net)
}

fn divided(alloc: Global, net: &mut Net, exact: bool) -> Result<Digits, Memory>
    requires nodes { net.old.nodes ≡ Input 0 5 ∷ Input 1 3 ∷ [] }
    requires valid { IsValid net.old }
{
    let mut bits = Items::new(alloc);
    push_bits(&mut bits, 0, 0, 5)?;
    let divisor = Divisor { node: 1, width: 3 };
    let digits = divide(alloc, net, bits.as_slice(), divisor, exact)?;
    Ok(digits)
}

#[test]
fn five_bits_by_three(rt: HostRuntime) -> Result<(), Fail> {
    let alloc = rt.alloc();
    let mut net = inputs(alloc)?;
    let digits = divided(alloc, &mut net, true)?;
    assert_eq!(rt; net.nodes.len(), 33);
    for b in 1u32..8 {
        for a in 0u32..32 {
            let numbers = numbers_of(alloc, &net, &[u128::from(a), u128::from(b)])?;
            assert_eq!(rt;
                number_of(digits.known.as_slice(), &numbers),
                u128::from(a / b)
            );
            assert_eq!(rt;
                number_of(digits.rest.as_slice(), &numbers),
                u128::from(a % b)
            );
        }
    }
    Ok(())
}

#[test]
fn no_remainder(rt: HostRuntime) -> Result<(), Fail> {
    let alloc = rt.alloc();
    let mut net = inputs(alloc)?;
    let digits = divided(alloc, &mut net, false)?;
    assert_eq!(rt; net.nodes.len(), 30);
    assert_eq!(rt; digits.known.len(), 5);
    assert_eq!(rt; digits.rest.len(), 0);
    Ok(())
}
