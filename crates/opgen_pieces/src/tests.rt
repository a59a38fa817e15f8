//! Tests of the sum in pieces: sums of 9 bits in pieces of 4, run on numbers that were added by hand.
ghost use Rattle.std.specs.Prelude.{◌≡◌, ◌<◌, ◌≤◌, ◌∷◌, [], All, IfOk, length};
ghost use Rattle.opgen_net.specs.Valid.{IsValid, widths};
ghost use Rattle.opgen_net.specs.WordRule.{IsThere};

use crate::{Sum, add_in_pieces};
use opgen_list::Items;
use opgen_net::{Expr, Net, Node, Op, WordBit, push_bits, push_zeros};
use opgen_num::Memory;
use std::alloc::{AllocError, Global};
use std::test::Fail;

// A number in so many bits.
#[derive(Clone, Copy)]
struct Number {
    value: u128,
    width: u32,
}

// A net of two inputs of nine bits, nodes 0 and 1.
fn two_words(alloc: Global) -> Result<Net, Memory>
    ensures widths { IfOk result (λ net. widths net.nodes ≡ 9 ∷ 9 ∷ []) }
    ensures valid { IfOk result IsValid }
{
    let mut net = Net::new(alloc);
    net.input("a", 9)?;
    net.input("b", 9)?;
    Ok(net)
}

// The highest bits of a node of nine bits, above so many zeros.
fn above_zeros(net: &Net, node: usize, zeros: u32) -> Result<Items<WordBit>, AllocError>
    requires words { widths net.now.nodes ≡ 9 ∷ 9 ∷ [] }
    requires node { node < 2 }
    requires zeros { zeros ≤ 9 }
    ensures width { IfOk result (λ bits. length bits ≡ 9) }
    ensures there { IfOk result (λ bits. All (IsThere (widths net.now.nodes)) bits) }
{
    let mut bits = Items::new(net.nodes.allocator());
    push_bits(&mut bits, node, zeros, 9 - zeros)?;
    push_zeros(&mut bits, zeros)?;
    Ok(bits)
}

// The lowest bits of a number.
fn cut(value: u128, width: u32) -> u128 {
    value & 1u128.wrapping_shl(width).wrapping_sub(1)
}

// A number with another one below it.
fn beside(high: Number, low: Number) -> Number {
    Number {
        value: high.value.wrapping_shl(low.width) | low.value,
        width: high.width.wrapping_add(low.width),
    }
}

fn number_at(numbers: &[Number], node: usize) -> Number {
    match numbers.get(node) {
        Some(number) => *number,
        None => Number { value: 0, width: 0 },
    }
}

// The number of constants, a node or a part of one.
fn run_number(numbers: &[Number], expr: &Expr) -> Number {
    match expr {
        Expr::Bits(word) => Number {
            value: word.bits,
            width: word.width,
        },
        Expr::Name(node) => number_at(numbers, *node),
        Expr::Part(slice) => {
            let width = slice.high.wrapping_sub(slice.low).wrapping_add(1);
            let above = number_at(numbers, slice.node).value.wrapping_shr(slice.low);
            Number {
                value: cut(above, width),
                width,
            }
        }
        Expr::Port(_) | Expr::Not(_) | Expr::Chain(_, _) => Number { value: 0, width: 0 },
    }
}

// The number of an operand of a sum.
fn operand_number(numbers: &[Number], expr: &Expr) -> Number {
    let Expr::Chain(Op::Cat, runs) = expr else {
        return run_number(numbers, expr);
    };
    let mut number = Number { value: 0, width: 0 };
    for run in runs {
        number = beside(number, run_number(numbers, run));
    }
    number
}

// The number of a sum or a difference.
fn sum_number(numbers: &[Number], expr: &Expr) -> Number {
    let Expr::Chain(op, operands) = expr else {
        return Number { value: 0, width: 0 };
    };
    let [first, second] = operands.as_slice() else {
        return Number { value: 0, width: 0 };
    };
    let first = operand_number(numbers, first);
    let second = operand_number(numbers, second);
    let value = if *op == Op::Minus {
        first.value.wrapping_sub(second.value)
    } else {
        first.value.wrapping_add(second.value)
    };
    Number {
        value: cut(value, first.width),
        width: first.width,
    }
}

// The number of each node, for the numbers of the two inputs.
fn numbers_of(alloc: Global, net: &Net, inputs: [u128; 2]) -> Result<Vec<Number>, AllocError> {
    let mut numbers = Vec::new(alloc);
    for node in net.nodes.as_slice() {
        let number = match node {
            Node::Input { port, width } => Number {
                value: if *port == 0 { inputs[0] } else { inputs[1] },
                width: *width,
            },
            Node::Cells { expr, .. } => sum_number(&numbers, expr.expr()),
            _ => Number { value: 0, width: 0 },
        };
        numbers.push(number)?;
    }
    Ok(numbers)
}

// The number of bits, the highest first.
fn bits_number(numbers: &[Number], bits: &[WordBit]) -> u128 {
    let mut value = 0u128;
    for bit in bits {
        let digit = match bit {
            WordBit::Zero => 0,
            WordBit::One => 1,
            WordBit::Of { node, index } => {
                number_at(numbers, *node).value.wrapping_shr(*index) & 1
            }
        };
        value = value.wrapping_mul(2).wrapping_add(digit);
    }
    value
}

// The inputs, their sum and their difference, modulo 512.
const ROWS: [(u128, u128, u128, u128); 8] = [
    (0, 0, 0, 0),
    (1, 1, 2, 0),
    (0, 1, 1, 511),
    (255, 1, 256, 254),
    (511, 511, 510, 0),
    (300, 211, 511, 89),
    (211, 300, 511, 423),
    (7, 505, 0, 14),
];

#[test]
fn nine_bits_in_pieces_of_four(rt: HostRuntime) -> Result<(), Fail> {
    let alloc = rt.alloc();
    for is_minus in [false, true] {
        let mut net = two_words(alloc)?;
        let first = above_zeros(&net, 0, 0)?;
        let second = above_zeros(&net, 1, 0)?;
        let sum = Sum {
            first: first.as_slice(),
            second: second.as_slice(),
            is_minus,
        };
        let bits = add_in_pieces(alloc, &mut net, sum, 4)?;
        assert_eq!(rt; net.nodes.len(), 6);
        for (a, b, total, difference) in ROWS {
            let numbers = numbers_of(alloc, &net, [a, b])?;
            let wanted = if is_minus { difference } else { total };
            assert_eq!(rt;
                bits_number(&numbers, bits.as_slice()),
                wanted,
                "at {a} and {b}"
            );
        }
    }
    Ok(())
}

#[test]
fn low_zeros_are_passed_on(rt: HostRuntime) -> Result<(), Fail> {
    let alloc = rt.alloc();
    let mut net = two_words(alloc)?;
    let first = above_zeros(&net, 0, 0)?;
    let second = above_zeros(&net, 1, 5)?;
    let sum = Sum {
        first: first.as_slice(),
        second: second.as_slice(),
        is_minus: true,
    };
    let bits = add_in_pieces(alloc, &mut net, sum, 4)?;
    // the four highest places are one node
    assert_eq!(rt; net.nodes.len(), 3);
    // 300 - 192 = 108, and 100 - 192 = -92
    for (a, b, wanted) in [(300, 211, 108), (100, 211, 420)] {
        let numbers = numbers_of(alloc, &net, [a, b])?;
        assert_eq!(rt;
            bits_number(&numbers, bits.as_slice()),
            wanted,
            "at {a} and {b}"
        );
    }
    Ok(())
}
