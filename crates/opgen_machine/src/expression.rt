//! Translates an expression to steps, and reuses an equal step among the last ones.
ghost use Rattle.std.specs.Prelude.{◌≡◌, ◌+◌, ◌-◌, ◌^◌, ◌<◌, ◌≤◌, ◌++◌, ◌∷◌, [], ℕ, length, slice_get, slice_index_or};
ghost use Rattle.std.specs.Prelude.{Some, IfOk, IfSome, OnOk, IsSome, IsTrue};
ghost use Rattle.opgen_design.specs.Plain.{plain, plain_all};
ghost use Rattle.opgen_design.specs.Tree.{bits, chain, name, part, port};
ghost use Rattle.opgen_design.specs.Value.{IsWidth, chain_width, joined};
ghost use Rattle.opgen_machine.specs.Steps.{AreFine};
ghost use Rattle.opgen_machine.specs.Programs.{AreSpots, ForSpots, widths_of};
ghost use Rattle.opgen_machine.specs.Layout.{spots_of};
ghost use Rattle.opgen_machine.specs.Emit.{Chosen, Combined, Copied, Emitted, IsNarrow, Looked, step_of, width_of, width_over};

use crate::layout::WordSpots;
use crate::step::{Spot, Step, mask};
use opgen_design::{Expr, Op, Slice};
use opgen_num::Word;
use std::alloc::AllocError;

/// How many of the last steps are searched for an equal one.
const NEAR: usize = 16;

// One more step, and the spot of its number.
fn put(steps: &mut Vec<Step>, base: usize, step: Step, width: u32) -> Result<Spot, AllocError>
    requires { base < 2 ^ 63 }
    ensures steps { OnOk result (steps.new.items ≡ steps.old.items ++ step ∷ []) }
    ensures spot { IfOk result (λ s. s ≡ record { place = base + length steps.old.items; width = width }) }
{
    let place = base + steps.len();
    steps.push(step)?;
    Ok(Spot { place, width })
}

fn step_of(op: Op, first: Spot, second: Spot) -> Step
    requires { first.width ≤ 64 }
    ensures { result ≡ step_of op first second }
{
    match op {
        Op::And => Step::Both {
            first: first.place,
            second: second.place,
        },
        Op::Or => Step::Either {
            first: first.place,
            second: second.place,
        },
        Op::Xor => Step::Differ {
            first: first.place,
            second: second.place,
        },
        Op::Cat => Step::Join {
            high: first.place,
            low: second.place,
            shift: second.width,
        },
        Op::Plus => Step::Add {
            first: first.place,
            second: second.place,
            mask: mask(first.width),
        },
        Op::Minus => Step::Subtract {
            first: first.place,
            second: second.place,
            mask: mask(first.width),
        },
    }
}

fn width_of(op: Op, first: u32, second: u32) -> u32
    requires first { IsWidth first }
    requires joins { IsNarrow (joined op first second) }
    ensures { result ≡ width_of op first second }
{
    match op {
        Op::Cat => first + second,
        _ => first,
    }
}

// Two operands together.
fn combine(
    steps: &mut Vec<Step>,
    base: usize,
    op: Op,
    first: Spot,
    second: Spot,
) -> Result<Spot, AllocError>
    requires base { base < 2 ^ 63 }
    requires fine { AreFine base steps.old.items }
    requires joins { IsNarrow (joined op first.width second.width) }
    requires width { IsWidth first.width }
    requires second_width { IsWidth second.width }
    requires first { first.place < base + length steps.old.items }
    requires second { second.place < base + length steps.old.items }
    ensures { let end = base + length steps.old.items in
        IfOk result (λ s. ForSpots end (λ spots. Combined base spots op first second steps.old.items steps.new.items s)) }
{
    let width = width_of(op, first.width, second.width);
    let step = step_of(op, first, second);
    put(steps, base, step, width)
}

/// Appends the choice of two words by a bit: the first where it is 1. The numbers before the first step are `base`.
pub(crate) fn choose(
    steps: &mut Vec<Step>,
    base: usize,
    on: Spot,
    one: Spot,
    other: Spot,
) -> Result<Spot, AllocError>
    requires base { base < 2 ^ 63 }
    requires fine { AreFine base steps.old.items }
    requires bit { on.width ≡ 1 }
    requires same { one.width ≡ other.width }
    requires on { on.place < base + length steps.old.items }
    requires one { one.place < base + length steps.old.items }
    requires other { other.place < base + length steps.old.items }
    ensures { let end = base + length steps.old.items in
        IfOk result (λ s. ForSpots end (λ spots. Chosen base spots on one other steps.old.items steps.new.items s)) }
{
    let step = Step::Choose {
        on: on.place,
        one: one.place,
        other: other.place,
    };
    put(steps, base, step, one.width)
}

/// Appends a word once more, behind the numbers before the first step.
pub(crate) fn copy(steps: &mut Vec<Step>, base: usize, of: Spot) -> Result<Spot, AllocError>
    requires base { base < 2 ^ 63 }
    requires fine { AreFine base steps.old.items }
    requires of { of.place < base + length steps.old.items }
    ensures { let end = base + length steps.old.items in
        IfOk result (λ s. ForSpots end (λ spots. Copied base spots of steps.old.items steps.new.items s)) }
{
    put(steps, base, Step::Copy(of.place), of.width)
}

/// Appends the word of a table, whose numbers stand from a place on among those before the first step, one for each address.
pub(crate) fn look_up(
    steps: &mut Vec<Step>,
    base: usize,
    on: Spot,
    from: usize,
    width: u32,
) -> Result<Spot, AllocError>
    requires base { base < 2 ^ 63 }
    requires fine { AreFine base steps.old.items }
    requires narrow { on.width ≤ 64 }
    requires on { on.place < base + length steps.old.items }
    requires numbers { from + 2 ^ on.width ≤ base }
    ensures { IfOk result (λ s. Looked base on from width steps.old.items steps.new.items s) }
{
    let step = Step::Look {
        from,
        on: on.place,
        mask: mask(on.width),
    };
    put(steps, base, step, width)
}

fn spot_at(spots: &[Spot], node: usize) -> Spot
    requires { node < length spots.now }
    ensures { result ≡ slice_index_or spots.now node (record { place = 0; width = 0 }) }
{
    spots[node]
}

/// The spot of a signal's word.
pub(crate) fn name(steps: &Vec<Step>, base: usize, spots: &WordSpots, node: usize) -> Spot
    requires spots { AreSpots (base + length steps.now.items) (spots_of spots.now) }
    requires fine { AreFine base steps.now.items }
    requires fits { IsSome (width_over (spots_of spots.now) (name node)) }
    ensures { Emitted base (spots_of spots.now) (name node) steps.now.items steps.now.items result }
{
    spot_at(&spots.signals, node)
}

/// The spot of a port's word.
pub(crate) fn port(steps: &Vec<Step>, base: usize, spots: &WordSpots, place: usize) -> Spot
    requires spots { AreSpots (base + length steps.now.items) (spots_of spots.now) }
    requires fine { AreFine base steps.now.items }
    requires fits { IsSome (width_over (spots_of spots.now) (port place)) }
    ensures { Emitted base (spots_of spots.now) (port place) steps.now.items steps.now.items result }
{
    spot_at(&spots.ports, place)
}

// Whether a step takes the part from bit `low` on, under a mask, of the number at a place.
fn is_part(step: &Step, of: usize, low: u32, mask: u64) -> bool
    ensures { IsTrue result → step.now ≡ Step.Part of low mask }
{
    match *step {
        Step::Part {
            of: place,
            low: first,
            mask: bits,
        } => place == of && first == low && bits == mask,
        _ => false,
    }
}

// Where an equal part is among the last steps: neighbouring drivers often read the same parts.
fn near(steps: &[Step], of: usize, low: u32, mask: u64) -> Option<usize>
    ensures { IfSome result (λ i. slice_get steps.now i ≡ Some (Step.Part of low mask)) }
{
    let first = steps.len().saturating_sub(NEAR);
    let mut index = steps.len();
    while index > first {
        index -= 1;
        if is_part(&steps[index], of, low, mask) {
            return Some(index);
        }
    }
    None
}

fn emit_part(
    steps: &mut Vec<Step>,
    base: usize,
    spots: &WordSpots,
    slice: Slice,
) -> Result<Spot, AllocError>
    requires base { base < 2 ^ 63 }
    requires spots { AreSpots (base + length steps.old.items) (spots_of spots.now) }
    requires fine { AreFine base steps.old.items }
    requires fits { IsSome (width_over (spots_of spots.now) (part slice.node slice.high slice.low)) }
    ensures { IfOk result (λ s. Emitted base (spots_of spots.now) (part slice.node slice.high slice.low) steps.old.items steps.new.items s) }
{
    let width = slice.high + 1 - slice.low;
    let of = spot_at(&spots.signals, slice.node);
    let mask = mask(width);
    match near(steps, of.place, slice.low, mask) {
        Some(index) => Ok(Spot {
            place: base + index,
            width,
        }),
        None => put(
            steps,
            base,
            Step::Part {
                of: of.place,
                low: slice.low,
                mask,
            },
            width,
        ),
    }
}

/// Appends a word that does not change.
pub(crate) fn constant(
    steps: &mut Vec<Step>,
    base: usize,
    spots: &WordSpots,
    word: Word,
) -> Result<Spot, AllocError>
    requires base { base < 2 ^ 63 }
    requires spots { AreSpots (base + length steps.old.items) (spots_of spots.now) }
    requires fine { AreFine base steps.old.items }
    requires fits { IsNarrow (width_over (spots_of spots.now) (bits word)) }
    ensures { IfOk result (λ s. Emitted base (spots_of spots.now) (bits word) steps.old.items steps.new.items s) }
{
    put(
        steps,
        base,
        Step::Constant(word.bits() as u64),
        word.width(),
    )
}

fn emit_not(steps: &mut Vec<Step>, base: usize, of: Spot) -> Result<Spot, AllocError>
    requires base { base < 2 ^ 63 }
    requires width { of.width ≤ 64 }
    ensures steps { OnOk result (steps.new.items ≡ steps.old.items ++ Step.Turn of.place (2 ^ of.width - 1) ∷ []) }
    ensures spot { IfOk result (λ s. s ≡ record { place = base + length steps.old.items; width = of.width }) }
{
    put(
        steps,
        base,
        Step::Turn {
            of: of.place,
            mask: mask(of.width),
        },
        of.width,
    )
}

/// Appends the steps of an expression of at most 64 bits, and gives the spot of its value.
///
/// The numbers before the first step are `base`, and `spots` has the spots of the words that are read.
#[cycle(emit)]
pub(crate) fn emit(
    steps: &mut Vec<Step>,
    base: usize,
    spots: &WordSpots,
    expr: &Expr,
) -> Result<Spot, AllocError>
    requires base { base < 2 ^ 63 }
    requires spots { AreSpots (base + length steps.old.items) (spots_of spots.now) }
    requires fine { AreFine base steps.old.items }
    requires fits { IsNarrow (width_over (spots_of spots.now) (plain expr.now)) }
    ensures { IfOk result (λ s. Emitted base (spots_of spots.now) (plain expr.now) steps.old.items steps.new.items s) }
{
    match expr {
        Expr::Name(node) => Ok(name(steps, base, spots, *node)),
        Expr::Part(slice) => emit_part(steps, base, spots, *slice),
        Expr::Bits(word) => constant(steps, base, spots, *word),
        Expr::Port(place) => Ok(port(steps, base, spots, *place)),
        Expr::Not(operand) => {
            let of = emit(steps, base, spots, operand)?;
            emit_not(steps, base, of)
        }
        Expr::Chain(op, operands) => emit_chain(steps, base, spots, *op, operands),
    }
}

#[cycle(emit)]
fn emit_chain(
    steps: &mut Vec<Step>,
    base: usize,
    spots: &WordSpots,
    op: Op,
    operands: &[Expr],
) -> Result<Spot, AllocError>
    requires base { base < 2 ^ 63 }
    requires spots { AreSpots (base + length steps.old.items) (spots_of spots.now) }
    requires fine { AreFine base steps.old.items }
    requires fits { IsNarrow (chain_width (widths_of spots.now.signals.items) (widths_of spots.now.ports.items) op (plain_all operands.now)) }
    ensures { IfOk result (λ s. Emitted base (spots_of spots.now) (chain op (plain_all operands.now)) steps.old.items steps.new.items s) }
{
    match operands {
        [] => unreachable!(),
        [first, rest @ ..] => {
            let mut spot = emit(steps, base, spots, first)?;
            for operand in rest {
                let second = emit(steps, base, spots, operand)?;
                spot = combine(steps, base, op, spot, second)?;
            }
            Ok(spot)
        }
    }
}
