//! Translates the registers of a design to steps, and to moves that store their next words when a cycle ends.
ghost use Rattle.std.specs.Prelude.{ℕ, ◌≡◌, ◌+◌, ◌<◌, ◌^◌, All, IfOk, IfSome, Some, length};
ghost use Rattle.opgen_design.specs.Tree.{port};
ghost use Rattle.opgen_machine.specs.Steps.{AreFine};
ghost use Rattle.opgen_machine.specs.Programs.{AreSpots, widths_of};
ghost use Rattle.opgen_machine.specs.Layout.{spots_of};
ghost use Rattle.opgen_machine.specs.Moves.{AreWithin, HandsOn, IsNext, move_all};
ghost use Rattle.opgen_machine.specs.Settles.{Agrees, HasNarrow, IsThere, width_at};
ghost use Rattle.opgen_design.specs.declared.design.Target.TheVariants.{Signal as signal};
ghost use Rattle.opgen_design.specs.Sound.{target};

use crate::expression::{choose, copy, emit, name, port};
use crate::layout::WordSpots;
use crate::step::{Spot, Step};
use opgen_design::{Driver, Formula};
use std::alloc::{AllocError, Global};

/// The number at one place is put at another when a cycle ends.
#[derive(Clone, Copy, Debug, PartialEq, Eq)]
pub struct Move {
    pub to: usize,
    pub from: usize,
}

// What a register holds next: the new word where there is no enable or its word is 1, and else the word that it holds.
fn next_spot(
    steps: &mut Vec<Step>,
    base: usize,
    spots: &WordSpots,
    enable: Option<usize>,
    to: usize,
    expr: &Formula,
) -> Result<Spot, AllocError>
    requires base { base < 2 ^ 63 }
    requires spots { AreSpots (base + length steps.old.items) (spots_of spots.now) }
    requires fine { AreFine base steps.old.items }
    requires there { to < length spots.now.signals.items }
    requires agrees { HasNarrow (spots_of spots.now) expr.now (width_at (spots_of spots.now) (signal to)) }
    requires enable { IfSome enable (λ p. HasNarrow (spots_of spots.now) (port p) 1) }
    ensures { IfOk result (λ s. IsNext base (spots_of spots.now) enable to expr.now steps.old.items steps.new.items s) }
{
    let new = emit(steps, base, spots, expr.expr())?;
    match enable {
        None => copy(steps, base, new),
        Some(place) => {
            let on = port(steps, base, spots, place);
            let held = name(steps, base, spots, to);
            choose(steps, base, on, new, held)
        }
    }
}

/// Appends the steps of the registers among drivers, and gives the moves that put their next numbers at their places.
pub(crate) fn moves(
    alloc: Global,
    steps: &mut Vec<Step>,
    base: usize,
    spots: &WordSpots,
    enable: Option<usize>,
    drivers: &[Driver],
) -> Result<Vec<Move>, AllocError>
    requires base { base < 2 ^ 63 }
    requires spots { AreSpots (base + length steps.old.items) (spots_of spots.now) }
    requires fine { AreFine base steps.old.items }
    requires first { length spots.now.signals.items < base }
    requires agrees { All (Agrees (spots_of spots.now)) drivers.now }
    requires there { All (λ k. IsThere (spots_of spots.now) (target k)) drivers.now }
    requires enable { IfSome enable (λ p. HasNarrow (spots_of spots.now) (port p) 1) }
    ensures { let widths = widths_of spots.now.signals.items in
        IfOk result (λ v. HandsOn base (spots_of spots.now) enable widths drivers.now steps.old.items steps.new.items v.items) }
{
    let mut moves = Vec::new(alloc);
    for driver in drivers {
        if let Driver::Register { to, expr } = driver {
            let spot = next_spot(steps, base, spots, enable, *to, expr)?;
            moves.push(Move {
                to: *to,
                from: spot.place,
            })?;
        }
    }
    Ok(moves)
}

/// Puts numbers at their places, one after another.
pub(crate) fn move_all(moves: &[Move], memory: &mut [u64])
    requires { AreWithin (length memory.old) moves.now }
    ensures { memory.new ≡ move_all moves.now memory.old }
{
    for item in moves {
        memory[item.to] = memory[item.from];
    }
}
