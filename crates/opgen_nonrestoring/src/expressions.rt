//! The expressions of a step, and of the remainder at the end.
ghost use Rattle.std.specs.Prelude.{◌≡◌, ◌≤◌, ◌+◌, ◌<◌, ◌^◌, IfOk};
ghost use Rattle.opgen_num.specs.declared.format.TheConstants.{MAX_WIDTH};
ghost use Rattle.opgen_design.specs.Plain.{plain};
ghost use Rattle.opgen_design.specs.declared.expr.Op.TheVariants.{Plus};
ghost use Rattle.opgen_design.specs.Tree.{inverse, name};
ghost use Rattle.opgen_nonrestoring.specs.Recipe.{two as two_of, every as every_of, top as top_of, low as low_of, negative as negative_of, next_bit as next_bit_of, next_sum as next_sum_of, next_digit as next_digit_of, remainder_bits as remainder_bits_of, correction as correction_of};

use crate::Divisor;
use opgen_net::{Expr, Op, Slice};
use opgen_num::Word;
use std::alloc::{AllocError, Global};

// An operator between two expressions.
fn two(alloc: Global, op: Op, a: Expr, b: Expr) -> Result<Expr, AllocError>
    ensures { IfOk result (λ e. plain e ≡ two_of op (plain a) (plain b)) }
{
    let mut operands = Vec::new(alloc);
    operands.push(a)?;
    operands.push(b)?;
    Ok(Expr::Chain(op, operands))
}

fn inverted(alloc: Global, expr: Expr) -> Result<Expr, AllocError>
    ensures { IfOk result (λ e. plain e ≡ inverse (plain expr)) }
{
    Ok(Expr::Not(Box::new(alloc, expr)?))
}

// The bit of an expression in each place of a word.
fn every(alloc: Global, width: u32, bit: &Expr) -> Result<Expr, AllocError>
    ensures { IfOk result (λ e. plain e ≡ every_of width (plain bit.now)) }
{
    if width == 1 {
        let copy = bit.copy(alloc)?;
        return Ok(copy);
    }
    let mut copies = Vec::new(alloc);
    'copies: for place in 0..width {
        copies.push(bit.copy(alloc)?)?;
    }
    Ok(Expr::Chain(Op::Cat, copies))
}

// The highest bit of a sum.
fn top(width: u32, sum: usize) -> Expr
    ensures { plain result ≡ top_of width sum }
{
    Expr::Part(Slice {
        node: sum,
        high: width,
        low: width,
    })
}

// The bits of a sum below its highest.
fn low(width: u32, sum: usize) -> Expr
    requires { 1 ≤ width }
    ensures { plain result ≡ low_of width sum }
{
    Expr::Part(Slice {
        node: sum,
        high: width - 1,
        low: 0,
    })
}

/// The lower bits of the remainder or of its complement, whichever is negative.
pub fn negative(alloc: Global, width: u32, sum: usize) -> Result<Expr, AllocError>
    requires { 1 ≤ width }
    ensures { IfOk result (λ e. plain e ≡ negative_of width sum) }
{
    let signs = every(alloc, width, &top(width, sum))?;
    two(alloc, Op::Xor, low(width, sum), inverted(alloc, signs)?)
}

/// The next bit of the numerator, turned where the remainder's complement is added to.
pub fn next_bit(
    alloc: Global,
    width: u32,
    bit: usize,
    before: usize,
    sum: usize,
) -> Result<Expr, AllocError>
    ensures { IfOk result (λ e. plain e ≡ next_bit_of width bit before sum) }
{
    let mut operands = Vec::new(alloc);
    operands.push(Expr::Name(bit))?;
    operands.push(Expr::Name(before))?;
    operands.push(top(width, sum))?;
    inverted(alloc, Expr::Chain(Op::Xor, operands))
}

/// The divisor and twice the negative word, with the next bit below it.
pub fn next_sum(
    alloc: Global,
    divisor: usize,
    negative: usize,
    bit: usize,
) -> Result<Expr, AllocError>
    ensures { IfOk result (λ e. plain e ≡ next_sum_of divisor negative bit) }
{
    let zero = Expr::Bits(Word::new(0, 1));
    let a = two(alloc, Op::Cat, zero, Expr::Name(divisor))?;
    let b = two(alloc, Op::Cat, Expr::Name(negative), Expr::Name(bit))?;
    two(alloc, Op::Plus, a, b)
}

/// Whether the new remainder is not negative.
pub fn next_digit(alloc: Global, width: u32, last: usize, sum: usize) -> Result<Expr, AllocError>
    ensures { IfOk result (λ e. plain e ≡ next_digit_of width last sum) }
{
    let differ = two(alloc, Op::Xor, Expr::Name(last), top(width, sum))?;
    inverted(alloc, differ)
}

/// The lower bits of the remainder.
pub fn remainder_bits(
    alloc: Global,
    width: u32,
    before: usize,
    sum: usize,
) -> Result<Expr, AllocError>
    requires { 1 ≤ width }
    ensures { IfOk result (λ e. plain e ≡ remainder_bits_of width before sum) }
{
    let turned = every(alloc, width, &Expr::Name(before))?;
    two(alloc, Op::Xor, low(width, sum), turned)
}

/// The divisor where the remainder is negative, and else 0.
pub fn correction(
    alloc: Global,
    divisor: Divisor,
    before: usize,
    sum: usize,
) -> Result<Expr, AllocError>
    ensures { IfOk result (λ e. plain e ≡ correction_of divisor before sum) }
{
    let turned = every(alloc, divisor.width, &Expr::Name(before))?;
    let signs = every(alloc, divisor.width, &top(divisor.width, sum))?;
    let negative = two(alloc, Op::Xor, turned, signs)?;
    two(alloc, Op::And, Expr::Name(divisor.node), negative)
}

/// The sum of two nodes.
pub fn sum_of(alloc: Global, a: usize, b: usize) -> Result<Expr, AllocError>
    ensures { IfOk result (λ e. plain e ≡ two_of Plus (name a) (name b)) }
{
    two(alloc, Op::Plus, Expr::Name(a), Expr::Name(b))
}
