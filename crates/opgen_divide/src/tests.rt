//! Worked quotients by both recurrences, by an evaluator of nets without tables and delays.
ghost use Rattle.std.specs.Prelude.{◌≤◌};

use crate::build;
use opgen_net::{Expr, Net, Node, Op, Slice};
use opgen_num::{Format, Memory};
use opgen_operator::Pair;
use opgen_ports::Recurrence;
use std::alloc::{AllocError, Global};
use std::test::Fail;

// A number and the number of its bits.
#[derive(Clone, Copy)]
struct Number {
    value: u128,
    width: u32,
}

const NONE: Number = Number { value: 0, width: 0 };

fn mask(width: u32) -> u128 {
    !u128::MAX.checked_shl(width).unwrap_or(0)
}

fn at(numbers: &[Number], node: usize) -> Number {
    numbers.get(node).copied().unwrap_or(NONE)
}

fn part(numbers: &[Number], slice: Slice) -> Number {
    let width = slice.high.wrapping_add(1).wrapping_sub(slice.low);
    let value = at(numbers, slice.node).value;
    Number {
        value: value.checked_shr(slice.low).unwrap_or(0) & mask(width),
        width,
    }
}

fn joined(op: Op, a: Number, b: Number) -> Number {
    let (value, width) = match op {
        Op::And => (a.value & b.value, a.width),
        Op::Or => (a.value | b.value, a.width),
        Op::Xor => (a.value ^ b.value, a.width),
        Op::Cat => (
            a.value.checked_shl(b.width).unwrap_or(0) | b.value,
            a.width.wrapping_add(b.width),
        ),
        Op::Plus => (a.value.wrapping_add(b.value), a.width),
        Op::Minus => (a.value.wrapping_sub(b.value), a.width),
    };
    Number {
        value: value & mask(width),
        width,
    }
}

#[cycle(evaluate)]
fn evaluate(expr: &Expr, numbers: &[Number]) -> Number {
    match expr {
        Expr::Name(node) => at(numbers, *node),
        Expr::Part(slice) => part(numbers, *slice),
        Expr::Bits(word) => Number {
            value: word.bits,
            width: word.width,
        },
        Expr::Port(_) => NONE,
        Expr::Not(operand) => {
            let number = evaluate(operand, numbers);
            Number {
                value: !number.value & mask(number.width),
                width: number.width,
            }
        }
        Expr::Chain(op, operands) => evaluate_chain(*op, operands, numbers),
    }
}

#[cycle(evaluate)]
fn evaluate_chain(op: Op, operands: &[Expr], numbers: &[Number]) -> Number {
    let mut number = NONE;
    let mut first = true;
    for operand in operands {
        let next = evaluate(operand, numbers);
        number = if first {
            next
        } else {
            joined(op, number, next)
        };
        first = false;
    }
    number
}

fn number_of(node: &Node, inputs: &[u128], numbers: &[Number]) -> Number {
    match node {
        Node::Input { port, width } => Number {
            value: inputs.get(*port).copied().unwrap_or(0),
            width: *width,
        },
        Node::Constant(word) => Number {
            value: word.bits,
            width: word.width,
        },
        Node::Cells {
            class: _,
            width: _,
            expr,
        } => evaluate(expr.expr(), numbers),
        Node::Choice { on, yes, no } => {
            if at(numbers, *on).value == 1 {
                part(numbers, *yes)
            } else {
                part(numbers, *no)
            }
        }
        Node::Table { .. } | Node::Delay { .. } => NONE,
    }
}

// The numbers of the outputs, over those of the inputs.
fn outputs_of(alloc: Global, net: &Net, inputs: &[u128]) -> Result<Vec<u128>, AllocError> {
    let mut numbers = Vec::new(alloc);
    for node in net.nodes.as_slice() {
        let number = number_of(node, inputs, &numbers);
        numbers.push(number)?;
    }
    let mut outputs = Vec::new(alloc);
    for output in net.outputs.as_slice() {
        outputs.push(part(&numbers, output.from).value)?;
    }
    Ok(outputs)
}

// The words of two inputs, of their quotient and of the remainder.
#[derive(Clone, Copy)]
struct Worked {
    a: u128,
    b: u128,
    q: u128,
    r: u128,
}

// Whether the net has the outputs of the row.
fn agrees(alloc: Global, net: &Net, exact: bool, row: Worked) -> Result<bool, AllocError> {
    let outputs = outputs_of(alloc, net, &[row.a, row.b])?;
    if exact {
        Ok(outputs.as_slice() == [row.q, row.r].as_slice())
    } else {
        Ok(outputs.as_slice() == [row.q].as_slice())
    }
}

// The net of a quotient by three bits.
fn built(
    alloc: Global,
    signed: bool,
    width: u32,
    exact: bool,
    recurrence: Recurrence,
) -> Result<Net, Memory>
    requires { (2 ≤ width) × (width ≤ 7) }
{
    let a = Format {
        signed,
        width,
        lsb: 0,
    };
    let pair = Pair {
        a,
        b: Format { width: 3, ..a },
        out_lsb: 0,
        exact,
        recurrence,
    };
    build(alloc, &pair)
}

fn row(a: u128, b: u128, q: u128, r: u128) -> Worked {
    Worked { a, b, q, r }
}

// 100 / 7, 6 / 3 and 127 / 1 without signs; -8 / 3 = -2 with the rest -2, and -8 / -1 = 8.
#[test]
fn worked_rows(rt: HostRuntime) -> Result<(), Fail> {
    let alloc = rt.alloc();
    let unsigned = [row(100, 7, 14, 2), row(6, 3, 2, 0), row(127, 1, 127, 0)];
    let signed = [row(8, 3, 30, 6), row(8, 7, 8, 0)];
    for recurrence in [Recurrence::Restoring, Recurrence::Nonrestoring] {
        for exact in [true, false] {
            let net = built(alloc, false, 7, exact, recurrence)?;
            for row in unsigned {
                assert!(rt; agrees(alloc, &net, exact, row)?, "{} by {}", row.a, row.b);
            }
            let net = built(alloc, true, 4, exact, recurrence)?;
            for row in signed {
                assert!(rt; agrees(alloc, &net, exact, row)?, "{} by {}", row.a, row.b);
            }
        }
    }
    Ok(())
}
