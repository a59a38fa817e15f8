//! Translates the drivers of a design to steps.
ghost use Rattle.std.specs.Prelude.{ℕ, ◌≡◌, ◌+◌, ◌<◌, ◌≤◌, ◌^◌, Bool, List, [], All, IfOk, IfSome, OnOk, Some, length, slice_get};
ghost use Rattle.std.specs.List.{AllZip};
ghost use Rattle.opgen_design.specs.declared.design.Driver.TheVariants.{Table};
ghost use Rattle.opgen_design.specs.Sound.{target};
ghost use Rattle.opgen_runs.specs.Tables.{Row};
ghost use Rattle.opgen_machine.specs.Steps.{AreFine};
ghost use Rattle.opgen_machine.specs.Programs.{AreSpots};
ghost use Rattle.opgen_machine.specs.Layout.{spots_of};
ghost use Rattle.opgen_machine.specs.Emit.{IsNarrow, width_over};
ghost use Rattle.opgen_machine.specs.Laid.{HasRoom};
ghost use Rattle.opgen_machine.specs.Settles.{Agrees, AgreesTable, HasNarrow, IsPut, IsThere, Leaves, Left, Settles, chosen_over, width_at};

use crate::expression::{choose, constant, emit, look_up};
use crate::layout::WordSpots;
use crate::step::{Spot, Step};
use opgen_design::{Driver, Formula, Target};
use opgen_num::Word;
use std::alloc::AllocError;

// A choice of two expressions of one width by a bit.
fn choice_spot(
    steps: &mut Vec<Step>,
    base: usize,
    spots: &WordSpots,
    on: &Formula,
    yes: &Formula,
    no: &Formula,
) -> Result<Spot, AllocError>
    requires base { base < 2 ^ 63 }
    requires spots { AreSpots (base + length steps.old.items) (spots_of spots.now) }
    requires fine { AreFine base steps.old.items }
    requires on { HasNarrow (spots_of spots.now) on.now 1 }
    requires yes { IsNarrow (width_over (spots_of spots.now) yes.now) }
    requires no { width_over (spots_of spots.now) no.now ≡ width_over (spots_of spots.now) yes.now }
    ensures { let at = spots_of spots.now in
        IfOk result (λ s. (size : ℕ) → HasNarrow at yes.now size
        → Left base at (chosen_over on.now yes.now no.now) size steps.old.items steps.new.items s) }
{
    let on = emit(steps, base, spots, on.expr())?;
    let yes = emit(steps, base, spots, yes.expr())?;
    let no = emit(steps, base, spots, no.expr())?;
    choose(steps, base, on, yes, no)
}

// The word of a table at an address, whose numbers are from a place on: the word of its first row, or else the other.
fn row_spot(
    steps: &mut Vec<Step>,
    base: usize,
    spots: &WordSpots,
    on: &Formula,
    from: usize,
    width: u32,
) -> Result<Spot, AllocError>
    requires base { base < 2 ^ 63 }
    requires spots { AreSpots (base + length steps.old.items) (spots_of spots.now) }
    requires fine { AreFine base steps.old.items }
    requires on { IsNarrow (width_over (spots_of spots.now) on.now) }
    requires room { IfSome (width_over (spots_of spots.now) on.now) (λ w. from + 2 ^ w ≤ base) }
    ensures { let at = spots_of spots.now in
        IfOk result (λ s. (low : ℕ) (rows : List Row) (other : List Bool) → 1 ≤ length rows → length other ≡ width
        → AgreesTable at on.now rows other width
        → Leaves low base at (Table 0 on.now rows other) from width steps.old.items steps.new.items s) }
{
    let on = emit(steps, base, spots, on.expr())?;
    look_up(steps, base, on, from, width)
}

// The word of a driver, and the spot at which it stands.
fn driver_spot(
    steps: &mut Vec<Step>,
    base: usize,
    spots: &WordSpots,
    driver: &Driver,
    from: usize,
) -> Result<Spot, AllocError>
    requires base { base < 2 ^ 63 }
    requires spots { AreSpots (base + length steps.old.items) (spots_of spots.now) }
    requires fine { AreFine base steps.old.items }
    requires agrees { Agrees (spots_of spots.now) driver.now }
    requires room { HasRoom base driver.now from }
    ensures { let at = spots_of spots.now in
        let width = width_at at (target driver.now) in
        IfOk result (λ s. (low : ℕ) → Leaves low base at driver.now from width steps.old.items steps.new.items s) }
{
    match driver {
        Driver::Assign { to: _, expr }
        | Driver::Register { to: _, expr }
        | Driver::Output { port: _, expr } => emit(steps, base, spots, expr.expr()),
        Driver::Choice { to: _, on, yes, no } => { choice_spot(steps, base, spots, on, yes, no) }
        Driver::Table {
            to: _,
            on,
            rows,
            other,
        } => {
            if rows.as_slice().is_empty() {
                constant(steps, base, spots, *other)
            } else {
                row_spot(steps, base, spots, on, from, other.width())
            }
        }
    }
}

// Appends the steps of a driver, and moves the spot of what it drives.
fn put(
    steps: &mut Vec<Step>,
    base: usize,
    spots: &mut WordSpots,
    driver: &Driver,
    from: usize,
) -> Result<(), AllocError>
    requires base { base < 2 ^ 63 }
    requires spots { AreSpots (base + length steps.old.items) (spots_of spots.old) }
    requires fine { AreFine base steps.old.items }
    requires agrees { Agrees (spots_of spots.old) driver.now }
    requires there { IsThere (spots_of spots.old) (target driver.now) }
    requires room { HasRoom base driver.now from }
    ensures { OnOk result ((low : ℕ) → IsPut low base driver.now from (spots_of spots.old) steps.old.items steps.new.items (spots_of spots.new)) }
{
    let spot = driver_spot(steps, base, spots, driver, from)?;
    match driver.target() {
        Target::Signal(place) => spots.signals[place] = spot,
        Target::Port(place) => spots.ports[place] = spot,
    }
    Ok(())
}

/// Appends the steps of the drivers at these places in order, and moves the spots of what they drive.
///
/// The numbers before the first step are `base`, and `tables` has the place of each driver's table among them.
pub(crate) fn settle(
    steps: &mut Vec<Step>,
    base: usize,
    spots: &mut WordSpots,
    drivers: &[Driver],
    tables: &[usize],
    order: &[usize],
) -> Result<(), AllocError>
    requires base { base < 2 ^ 63 }
    requires spots { AreSpots base (spots_of spots.old) }
    requires first { steps.old.items ≡ [] }
    requires places { (p i : ℕ) → slice_get order.now p ≡ Some i → i < length drivers.now }
    requires agrees { All (Agrees (spots_of spots.old)) drivers.now }
    requires there { All (λ k. IsThere (spots_of spots.old) (target k)) drivers.now }
    requires room { AllZip (HasRoom base) drivers.now tables.now }
    ensures { let first = spots_of spots.old in
        OnOk result ((low : ℕ) → Settles low base drivers.now tables.now order.now first steps.new.items (spots_of spots.new)) }
{
    for place in order {
        put(steps, base, spots, &drivers[*place], tables[*place])?;
    }
    Ok(())
}
