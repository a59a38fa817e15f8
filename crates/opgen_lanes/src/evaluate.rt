//! The values of expressions in each stream.
ghost use Rattle.std.specs.Prelude.{◌+◌, ◌-◌, ◌≡◌, ◌<◌, ◌≤◌, IfSome, IsSome, Some, length, slice_index, take};
ghost use Rattle.opgen_num.specs.declared.format.TheConstants.{MAX_WIDTH};
ghost use Rattle.opgen_design.specs.Plain.{plain, plain_all};
ghost use Rattle.opgen_design.specs.Run.{scope};
ghost use Rattle.opgen_design.specs.Value.{chain_value, cut, word_at, chain_width};
ghost use Rattle.opgen_lanes.specs.Banks.{IsBank, stream_words, value_in, width_in, widths_of, words_at};
ghost use Rattle.opgen_lanes.specs.Chains.{CanTakeIn, IsTakenIn};
ghost use Rattle.opgen_lanes.specs.Words.{HaveWord};

use crate::bank::{Bank, room};
use crate::words::{combine, turn, write};
use opgen_design::{Expr, Op, Slice};
use opgen_num::MAX_WIDTH;
use std::simd::prelude::*;

// Puts vectors at the front, and counts them.
fn put(word: &[u64x4], out: &mut [u64x4]) -> usize
    requires { length word.now ≤ length out.old }
    ensures width { result ≡ length word.now }
    ensures word { take result out.new ≡ word.now }
{
    out[..word.len()].copy_from_slice(word);
    word.len()
}

// The vectors of a part of a signal's word.
fn part(slice: Slice, signals: &Bank) -> &[u64x4]
    requires signals { IsBank signals.now }
    requires node { slice.node < length signals.now.places.items }
    requires low { slice.low ≤ slice.high }
    requires high { slice.high < slice_index (widths_of signals.now) slice.node }
    ensures width { length result.now ≡ slice.high + 1 - slice.low }
    ensures value { HaveWord result.now (λ k. cut slice.high slice.low (word_at (words_at signals.now k) slice.node)) }
{
    let word = signals.word(slice.node);
    &word[slice.low as usize..slice.high as usize + 1]
}

// The value of a name, a part or a port, where it stands.
fn in_place<'a>(expr: &Expr, signals: &'a Bank, ports: &'a Bank) -> Option<&'a [u64x4]>
    requires signals { IsBank signals.now }
    requires ports { IsBank ports.now }
    requires fits { IsSome (width_in signals.now ports.now (plain expr.now)) }
    ensures width { IfSome result (λ w. width_in signals.now ports.now (plain expr.now) ≡ Some (length w.now)) }
    ensures value { IfSome result (λ w. HaveWord w.now (value_in signals.now ports.now (plain expr.now))) }
{
    match expr {
        Expr::Name(signal) => Some(signals.word(*signal)),
        Expr::Part(slice) => Some(part(*slice, signals)),
        Expr::Port(place) => Some(ports.word(*place)),
        Expr::Bits(_) | Expr::Not(_) | Expr::Chain(_, _) => None,
    }
}

/// The vectors of an expression's value: where they stand, or else in the spare vectors, into which the expression is evaluated.
pub fn lend<'a>(
    expr: &Expr,
    signals: &'a Bank,
    ports: &'a Bank,
    spare: &'a mut [u64x4],
) -> &'a [u64x4]
    requires signals { IsBank signals.now }
    requires ports { IsBank ports.now }
    requires fits { IsSome (width_in signals.now ports.now (plain expr.now)) }
    requires spare { MAX_WIDTH ≤ length spare.old }
    ensures width { width_in signals.now ports.now (plain expr.now) ≡ Some (length result.now) }
    ensures value { HaveWord result.now (value_in signals.now ports.now (plain expr.now)) }
{
    match in_place(expr, signals, ports) {
        Some(word) => word,
        None => {
            let width = evaluate(expr, signals, ports, spare, &mut []);
            &spare[..width]
        }
    }
}

/// Puts the value of an expression at the front, and gives its width. The vectors behind it and the spare ones hold anything then.
///
/// Spare vectors for a word save the time to clear some.
#[cycle(evaluate)]
pub fn evaluate(
    expr: &Expr,
    signals: &Bank,
    ports: &Bank,
    out: &mut [u64x4],
    spare: &mut [u64x4],
) -> usize
    requires signals { IsBank signals.now }
    requires ports { IsBank ports.now }
    requires fits { IsSome (width_in signals.now ports.now (plain expr.now)) }
    requires room { MAX_WIDTH ≤ length out.old }
    ensures width { width_in signals.now ports.now (plain expr.now) ≡ Some result }
    ensures value { HaveWord (take result out.new) (value_in signals.now ports.now (plain expr.now)) }
{
    match expr {
        Expr::Name(signal) => put(signals.word(*signal), out),
        Expr::Part(slice) => put(part(*slice, signals), out),
        Expr::Bits(word) => {
            let width = word.width() as usize;
            write(*word, &mut out[..width]);
            width
        }
        Expr::Port(place) => put(ports.word(*place), out),
        Expr::Not(operand) => {
            let width = evaluate(operand, signals, ports, out, spare);
            turn(&mut out[..width]);
            width
        }
        Expr::Chain(op, operands) => evaluate_chain(*op, operands, signals, ports, out, spare),
    }
}

#[cycle(evaluate)]
fn evaluate_chain(
    op: Op,
    operands: &[Expr],
    signals: &Bank,
    ports: &Bank,
    out: &mut [u64x4],
    spare: &mut [u64x4],
) -> usize
    requires signals { IsBank signals.now }
    requires ports { IsBank ports.now }
    requires fits { IsSome (chain_width (widths_of signals.now) (widths_of ports.now) op (plain_all operands.now)) }
    requires room { MAX_WIDTH ≤ length out.old }
    ensures width { chain_width (widths_of signals.now) (widths_of ports.now) op (plain_all operands.now) ≡ Some result }
    ensures value { HaveWord (take result out.new) (λ k. chain_value (scope (stream_words signals.now ports.now k)) op (plain_all operands.now)) }
{
    match operands {
        [] => 0,
        [first, rest @ ..] => {
            let mut width = evaluate(first, signals, ports, out, spare);
            for operand in rest {
                width = take_in(op, operand, signals, ports, out, width, spare);
            }
            width
        }
    }
}

// Puts a chain's word at the front and one more operand together, and gives the width of what stands there.
#[cycle(evaluate)]
fn take_in(
    op: Op,
    operand: &Expr,
    signals: &Bank,
    ports: &Bank,
    out: &mut [u64x4],
    before: usize,
    spare: &mut [u64x4],
) -> usize
    requires { CanTakeIn signals.now ports.now op (plain operand.now) before out.old }
    ensures { IsTakenIn signals.now ports.now op (plain operand.now) before result out.old out.new }
{
    match in_place(operand, signals, ports) {
        Some(word) => combine(op, out, before, word),
        None => take_in_nested(op, operand, signals, ports, out, before, spare),
    }
}

// The same of an operand that has to be evaluated first.
#[cycle(evaluate)]
fn take_in_nested(
    op: Op,
    operand: &Expr,
    signals: &Bank,
    ports: &Bank,
    out: &mut [u64x4],
    before: usize,
    spare: &mut [u64x4],
) -> usize
    requires { CanTakeIn signals.now ports.now op (plain operand.now) before out.old }
    ensures { IsTakenIn signals.now ports.now op (plain operand.now) before result out.old out.new }
{
    if spare.len() < MAX_WIDTH as usize {
        return take_in_apart(op, operand, signals, ports, out, before);
    }
    let added = evaluate(operand, signals, ports, spare, &mut []);
    combine(op, out, before, &spare[..added])
}

// The same of an operand that has to be evaluated first, where no vectors are spare.
#[cycle(evaluate)]
fn take_in_apart(
    op: Op,
    operand: &Expr,
    signals: &Bank,
    ports: &Bank,
    out: &mut [u64x4],
    before: usize,
) -> usize
    requires { CanTakeIn signals.now ports.now op (plain operand.now) before out.old }
    ensures { IsTakenIn signals.now ports.now op (plain operand.now) before result out.old out.new }
{
    let mut second = room();
    let added = evaluate(operand, signals, ports, &mut second, &mut []);
    combine(op, out, before, &second[..added])
}
