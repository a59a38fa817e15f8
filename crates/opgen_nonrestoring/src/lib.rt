//! Quotients whose steps add or subtract the divisor by the sign of the remainder before (Ercegovac and Lang, Division and
//! Square Root: nonrestoring division).
//!
//! Proved: The nodes are those of the recipe. After each step, if the divisor is not 0, the numerator so far is the quotient of
//! the digits -1 and 1 times the divisor plus a remainder, which is at most the divisor in size; the binary quotient is that
//! quotient, or where the remainder is negative one less. At the end the digits are the quotient rounded down, and the rest,
//! where it is asked for, is the remainder.
//!
//! By: `divide`.
#![tactic(auto)]

mod expressions;
#[cfg(test)]
mod tests;

ghost use Rattle.std.specs.Prelude.{◌≡◌, ◌+◌, ◌≤◌, ◌++◌, [], All, IfOk, OnOk, length, slice_index, true};
ghost use Rattle.opgen_num.specs.declared.format.TheConstants.{MAX_WIDTH};
ghost use Rattle.opgen_design.specs.Value.{IsWidth};
ghost use Rattle.opgen_net.specs.Grown.{HasGrown};
ghost use Rattle.opgen_net.specs.Valid.{IsValid, widths};
ghost use Rattle.opgen_net.specs.WordRule.{IsThere};
ghost use Rattle.opgen_digits.specs.Digit.{known_in};
ghost use Rattle.opgen_digits.specs.Results.{AreResults};
ghost use Rattle.opgen_nonrestoring.specs.Recipe.{start as start_of, stepped, after, divided, finished, division_in};
ghost use Rattle.opgen_nonrestoring.specs.Steps.{IsDivisor, AreReady, HoldsAfterEachStep, HasQuotient};

use crate::expressions::{
    correction, negative, next_bit, next_digit, next_sum, remainder_bits, sum_of,
};
use opgen_digits::Digits;
use opgen_list::Items;
use opgen_net::{Class, Net, WordBit, push_bits};
use opgen_num::{Memory, Word};
use std::alloc::Global;

/// The node of a divisor, and how many bits it has.
#[derive(Clone, Copy)]
pub struct Divisor {
    pub node: usize,
    pub width: u32,
}

/// The digits so far, the nodes of the last two, and the node of the last sum.
#[derive(Drop)]
struct Division {
    known: Items<WordBit>,
    before: usize,
    last: usize,
    sum: usize,
}

// Before the first step the remainder is 0 and the last digit 1.
fn start(alloc: Global, net: &mut Net, width: u32) -> Result<Division, Memory>
    requires net { IsValid net.old }
    requires width { IsWidth (width + 1) }
    ensures ok { IfOk result (λ d. division_in net.new d ≡ start_of width net.old) }
    ensures valid { IsValid net.new }
{
    let sum = net.constant(Word::new(0, width + 1))?;
    let before = net.constant(Word::new(0, 1))?;
    let last = net.constant(Word::new(1, 1))?;
    Ok(Division {
        known: Items::new(alloc),
        before,
        last,
        sum,
    })
}

// One step: the next bit of the numerator.
fn step(
    alloc: Global,
    net: &mut Net,
    division: &mut Division,
    divisor: Divisor,
    bit: WordBit,
) -> Result<(), Memory>
    requires net { IsValid net.old }
    requires divisor { IsDivisor net.old divisor }
    requires ready { AreReady divisor.width (division_in net.old division.old) }
    requires bit { IsThere (widths net.old.nodes) bit }
    ensures ok { OnOk result (division_in net.new division.new ≡ stepped divisor (division_in net.old division.old) bit) }
    ensures valid { IsValid net.new }
{
    let width = divisor.width;
    let bit = net.word(&[bit])?;
    let negative = net.cells(Class::Logic, width, negative(alloc, width, division.sum)?)?;
    let turned = net.cells(
        Class::Logic,
        1,
        next_bit(alloc, width, bit, division.before, division.sum)?,
    )?;
    let sum = net.cells(
        Class::Add,
        width + 1,
        next_sum(alloc, divisor.node, negative, turned)?,
    )?;
    let digit = net.cells(
        Class::Logic,
        1,
        next_digit(alloc, width, division.last, sum)?,
    )?;
    division.known.push(WordBit::Of {
        node: digit,
        index: 0,
    })?;
    division.before = division.last;
    division.last = digit;
    division.sum = sum;
    Ok(())
}

// The bits of the remainder, which is set right where it is negative.
fn remainder(
    alloc: Global,
    net: &mut Net,
    division: &Division,
    divisor: Divisor,
) -> Result<Items<WordBit>, Memory>
    requires net { IsValid net.old }
    requires divisor { IsDivisor net.old divisor }
    requires ready { AreReady divisor.width (division_in net.old division.now) }
    ensures ok { IfOk result (λ rest. record { net = net.new; digits = division.now.known; rest = rest } ≡ finished true divisor (division_in net.old division.now)) }
    ensures valid { IsValid net.new }
{
    let width = divisor.width;
    let low = net.cells(
        Class::Logic,
        width,
        remainder_bits(alloc, width, division.before, division.sum)?,
    )?;
    let added = net.cells(
        Class::Logic,
        width,
        correction(alloc, divisor, division.before, division.sum)?,
    )?;
    let rest = net.cells(Class::Add, width, sum_of(alloc, low, added)?)?;
    let mut bits = Items::new(alloc);
    push_bits(&mut bits, rest, 0, width)?;
    Ok(bits)
}

// The digits, and the remainder if it is asked for.
fn finish(
    alloc: Global,
    net: &mut Net,
    division: Division,
    divisor: Divisor,
    exact: bool,
) -> Result<Digits, Memory>
    requires net { IsValid net.old }
    requires divisor { IsDivisor net.old divisor }
    requires ready { AreReady divisor.width (division_in net.old division) }
    ensures ok { IfOk result (λ d. known_in net.new d ≡ finished exact divisor (division_in net.old division)) }
    ensures valid { IsValid net.new }
{
    if !exact {
        return Ok(Digits {
            known: division.known,
            rest: Items::new(alloc),
        });
    }
    let rest = remainder(alloc, net, &division, divisor)?;
    Ok(Digits {
        known: division.known,
        rest,
    })
}

/// Appends the quotient of a number, whose bits are given from the highest, by a divisor: a digit for each bit of the number,
/// and if it is exact the remainder, in as many bits as the divisor has.
///
/// Where the divisor is 0, digits and remainder are some bits. If memory runs out, the net is valid and has some of the nodes.
pub fn divide(
    alloc: Global,
    net: &mut Net,
    numerator: &[WordBit],
    divisor: Divisor,
    exact: bool,
) -> Result<Digits, Memory>
    requires net { IsValid net.old }
    requires digits { IsWidth (length numerator.now) }
    requires numerator { All (IsThere (widths net.old.nodes)) numerator.now }
    requires divisor { IsDivisor net.old divisor }
    ensures ok { IfOk result (λ d. divided exact numerator.now divisor net.old ≡ known_in net.new d) }
    ensures valid { IsValid net.new }
    ensures grown { IfOk result (λ d. HasGrown net.old net.new) }
    ensures there { IfOk result (λ d. AreResults exact (known_in net.new d)) }
    ensures steps { IfOk result (λ d. HoldsAfterEachStep numerator.now divisor net.old net.new) }
    ensures quotient { IfOk result (λ d. HasQuotient exact numerator.now divisor (known_in net.new d)) }
{
    let mut division = start(alloc, net, divisor.width)?;
    'steps: for k in 0..numerator.len() {
        step(alloc, net, &mut division, divisor, numerator[k])?;
    }
    let digits = finish(alloc, net, division, divisor, exact)?;
    Ok(digits)
}
