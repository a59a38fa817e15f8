//! Digits of quotients and roots, one at a time from the highest: the step subtracts what the digit 1 takes off, and
//! restores the number if that was too much (de Dinechin and Kumm, Application-Specific Arithmetic).
//!
//! Proved: A digit is 1 exactly if the number is not less than what the digit takes off. The rest is what is left of the
//! number after it.
//!
//! By: `try_digit`, `output_results`; the law `digits_are_right` of `opgen_part_laws`.
#![tactic(auto)]

ghost use Rattle.std.specs.Prelude.{◌≡◌, ◌+◌, ◌≤◌, ℤ, [], ◌++◌, All, IfOk, OnOk, length};
ghost use Rattle.opgen_num.specs.declared.format.TheConstants.{MAX_WIDTH};
ghost use Rattle.opgen_design.specs.Plain.{plain};
ghost use Rattle.opgen_net.specs.declared.word_bits.WordBit.TheVariants.{Of};
ghost use Rattle.opgen_net.specs.Valid.{IsValid, widths};
ghost use Rattle.opgen_net.specs.WordRule.{IsThere};
ghost use Rattle.opgen_net.specs.Placed.{with_output, difference_of};
ghost use Rattle.opgen_design.specs.Value.{IsWidth};
ghost use Rattle.opgen_digits.specs.Results.{AreResults, with_results};
ghost use Rattle.opgen_digits.specs.Digit.{AreOperands, is_not_negative, known_in, lowest as lowest_of, with_trial};

use opgen_list::Items;
use opgen_net::{Class, Expr, Net, Op, Slice, WordBit, push_bits};
use opgen_num::Memory;
use std::alloc::{AllocError, Global};

/// Digits that are known, and the bits of what is left, each from the highest.
#[derive(Drop)]
pub struct Digits {
    pub known: Items<WordBit>,
    pub rest: Items<WordBit>,
}

/// A trial subtraction, of two nodes that have two bits more than the rest and are meant to have a
/// highest bit of 0.
#[derive(Clone, Copy)]
pub struct Trial {
    pub minuend: usize,
    pub subtrahend: usize,
    /// How many bits the rest has.
    pub rest: u32,
}

/// Appends further bits.
pub fn push_all(bits: &mut Items<WordBit>, more: &[WordBit]) -> Result<(), AllocError>
    ensures { OnOk result (bits.new ≡ bits.old ++ more.now) }
{
    'more: for bit in more {
        bits.push(*bit)?;
    }
    Ok(())
}

// The difference of the two nodes.
fn difference(alloc: Global, trial: Trial) -> Result<Expr, AllocError>
    ensures { IfOk result (λ e. plain e ≡ difference_of trial.minuend trial.subtrahend) }
{
    let mut operands = Vec::new(alloc);
    operands.push(Expr::Name(trial.minuend))?;
    operands.push(Expr::Name(trial.subtrahend))?;
    Ok(Expr::Chain(Op::Minus, operands))
}

// Whether a difference is not negative: its highest bit turned.
fn not_negative(alloc: Global, difference: usize, rest: u32) -> Result<Expr, AllocError>
    requires { rest ≤ MAX_WIDTH }
    ensures { IfOk result (λ e. plain e ≡ is_not_negative rest difference) }
{
    let top = Slice {
        node: difference,
        high: rest + 1,
        low: rest + 1,
    };
    Ok(Expr::Not(Box::new(alloc, Expr::Part(top))?))
}

fn lowest(node: usize, rest: u32) -> Slice
    requires { 1 ≤ rest }
    ensures { result ≡ lowest_of rest node }
{
    Slice {
        node,
        high: rest - 1,
        low: 0,
    }
}

/// Tries a subtraction, and so makes the next digit: 1 where that leaves no less than 0. What is left
/// is kept only where it is asked for, in as many bits as the rest has.
///
/// If memory runs out, the net is valid and has some of the nodes.
pub fn try_digit(
    alloc: Global,
    net: &mut Net,
    digits: &mut Digits,
    trial: Trial,
    keep: bool,
) -> Result<(), Memory>
    requires net { IsValid net.old }
    requires operands { AreOperands trial.rest net.old trial.minuend trial.subtrahend }
    ensures ok { OnOk result (with_trial keep trial net.old digits.old.known ≡ known_in net.new digits.new) }
    ensures valid { IsValid net.new }
{
    let difference = net.cells(Class::Add, trial.rest + 2, difference(alloc, trial)?)?;
    let digit = net.cells(
        Class::Logic,
        1,
        not_negative(alloc, difference, trial.rest)?,
    )?;
    digits.known.push(WordBit::Of {
        node: digit,
        index: 0,
    })?;
    digits.rest = Items::new(alloc);
    if keep {
        let left = net.choice(
            digit,
            lowest(difference, trial.rest),
            lowest(trial.minuend, trial.rest),
        )?;
        push_bits(&mut digits.rest, left, 0, trial.rest)?;
    }
    Ok(())
}

// Appends an output that has these bits, from the highest down.
fn output_bits(net: &mut Net, name: &str, bits: &[WordBit]) -> Result<(), Memory>
    requires net { IsValid net.old }
    requires width { IsWidth (length bits.now) }
    requires there { All (IsThere (widths net.old.nodes)) bits.now }
    ensures ok { OnOk result (net.new ≡ with_output name.now net.old bits.now) }
    ensures valid { IsValid net.new }
{
    let node = net.word(bits)?;
    let high = bits.len() as u32 - 1;
    net.output(name, Slice { node, high, low: 0 })
}

/// Appends the digits as an output, and where they are exact what is left as an output `r`.
pub fn output_results(net: &mut Net, name: &str, digits: &Digits, exact: bool) -> Result<(), Memory>
    requires net { IsValid net.old }
    requires results { AreResults exact (known_in net.old digits.now) }
    ensures ok { OnOk result (net.new ≡ with_results exact name.now (known_in net.old digits.now)) }
    ensures valid { IsValid net.new }
{
    output_bits(net, name, digits.known.as_slice())?;
    if exact {
        output_bits(net, "r", digits.rest.as_slice())?;
    }
    Ok(())
}
