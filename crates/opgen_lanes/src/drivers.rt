//! The words that drivers give, in each stream.
ghost use Rattle.std.specs.Prelude.{ℕ, ◌≡◌, ◌<◌, ◌≤◌, All, IsSome, Some, length, slice_get, take};
ghost use Rattle.opgen_num.specs.declared.format.TheConstants.{MAX_WIDTH};
ghost use Rattle.opgen_design.specs.declared.design.Driver.{Driver};
ghost use Rattle.opgen_design.specs.Plain.{plain};
ghost use Rattle.opgen_design.specs.Run.{scope};
ghost use Rattle.opgen_design.specs.Sound.{IsSound, target};
ghost use Rattle.opgen_design.specs.Value.{chosen};
ghost use Rattle.opgen_runs.specs.Evaluate.{IsThere, driver_word, put_at, put_option, settle, table_word};
ghost use Rattle.opgen_streams.specs.Streams.{word_in};
ghost use Rattle.opgen_lanes.specs.Banks.{HaveWords, IsBank, value_in, width_at, width_in, widths_of, words_of};
ghost use Rattle.opgen_lanes.specs.Ready.{AreBanksOf};
ghost use Rattle.opgen_lanes.specs.Words.{HaveWord};

use crate::bank::{Banks, room};
use crate::evaluate::{evaluate, lend};
use crate::tables::look_up;
use crate::words::choose;
use opgen_design::{Design, Driver, Expr, Target};
use opgen_num::Word;
use std::simd::prelude::*;

fn choice(
    on: &Expr,
    yes: &Expr,
    no: &Expr,
    banks: &Banks,
    out: &mut [u64x4],
    spare: &mut [u64x4],
) -> usize
    requires signals { IsBank banks.now.signals }
    requires ports { IsBank banks.now.ports }
    requires on { width_in banks.now.signals banks.now.ports (plain on.now) ≡ Some 1 }
    requires yes { IsSome (width_in banks.now.signals banks.now.ports (plain yes.now)) }
    requires no { width_in banks.now.signals banks.now.ports (plain no.now) ≡ width_in banks.now.signals banks.now.ports (plain yes.now) }
    requires room { MAX_WIDTH ≤ length out.old }
    requires spare { MAX_WIDTH ≤ length spare.old }
    ensures { let value = value_in banks.now.signals banks.now.ports in
        HaveWord (take result out.new) (λ k. chosen (value (plain on.now) k) (value (plain yes.now) k) (value (plain no.now) k)) }
{
    evaluate(on, &banks.signals, &banks.ports, out, spare);
    let on = out[0];
    let width = evaluate(yes, &banks.signals, &banks.ports, out, spare);
    let no = lend(no, &banks.signals, &banks.ports, spare);
    choose(on, &mut out[..width], no);
    width
}

fn table(
    on: &Expr,
    rows: &[(Word, Word)],
    other: Word,
    banks: &Banks,
    out: &mut [u64x4],
    spare: &mut [u64x4],
) -> usize
    requires signals { IsBank banks.now.signals }
    requires ports { IsBank banks.now.ports }
    requires on { IsSome (width_in banks.now.signals banks.now.ports (plain on.now)) }
    requires addresses { All (λ r. width_in banks.now.signals banks.now.ports (plain on.now) ≡ Some (length r.0)) rows.now }
    requires words { All (λ r. length r.1 ≡ length other) rows.now }
    requires narrow { length other ≤ MAX_WIDTH }
    requires spare { MAX_WIDTH ≤ length spare.old }
    requires room { MAX_WIDTH ≤ length out.old }
    ensures { HaveWord (take result out.new) (λ k. table_word rows.now other (value_in banks.now.signals banks.now.ports (plain on.now) k)) }
{
    let places = other.width() as usize;
    let address = lend(on, &banks.signals, &banks.ports, spare);
    look_up(rows, other, address, &mut out[..places]);
    places
}

// Puts what the driver's right side says at the front, and gives its width.
fn driver_word(
    design: &Design,
    place: usize,
    banks: &Banks,
    out: &mut [u64x4],
    spare: &mut [u64x4],
) -> usize
    requires sound { IsSound design.now }
    requires place { place < length design.now.drivers }
    requires banks { AreBanksOf design.now banks.now.signals banks.now.ports }
    requires room { MAX_WIDTH ≤ length out.old }
    requires spare { MAX_WIDTH ≤ length spare.old }
    ensures { (driver : Driver) → slice_get design.now.drivers place ≡ Some driver
        → HaveWord (take result out.new) (λ k. driver_word (scope (words_of banks.now k)) driver) }
{
    match design.drivers.get(place) {
        Driver::Assign { to: _, expr }
        | Driver::Register { to: _, expr }
        | Driver::Output { port: _, expr } => evaluate(
            expr.expr(),
            &banks.signals,
            &banks.ports,
            out,
            spare,
        ),
        Driver::Choice { to: _, on, yes, no } => {
            choice(on.expr(), yes.expr(), no.expr(), banks, out, spare)
        }
        Driver::Table {
            to: _,
            on,
            rows,
            other,
        } => table(on.expr(), rows.as_slice(), *other, banks, out, spare),
    }
}

// Puts a word at what the driver drives.
fn put_at(driver: &Driver, word: &[u64x4], banks: &mut Banks)
    requires signals { IsBank banks.old.signals }
    requires ports { IsBank banks.old.ports }
    requires there { IsThere (words_of banks.old 0) (target driver.now) }
    requires room { width_at banks.old.signals banks.old.ports (target driver.now) ≤ length word.now }
    ensures signals { IsBank banks.new.signals }
    ensures ports { IsBank banks.new.ports }
    ensures signal_widths { widths_of banks.new.signals ≡ widths_of banks.old.signals }
    ensures port_widths { widths_of banks.new.ports ≡ widths_of banks.old.ports }
    ensures words { let to = target driver.now in
        let new = take (width_at banks.old.signals banks.old.ports to) word.now in
        HaveWords banks.new (λ k. put_at to (word_in new k) (words_of banks.old k)) }
{
    match driver.target() {
        Target::Signal(place) => banks.signals.store(place, word),
        Target::Port(place) => banks.ports.store(place, word),
    }
}

// Puts the word of the driver at a place at what it drives, by way of the room.
fn put(design: &Design, place: usize, banks: &mut Banks, word: &mut [u64x4], spare: &mut [u64x4])
    requires sound { IsSound design.now }
    requires place { place < length design.now.drivers }
    requires banks { AreBanksOf design.now banks.old.signals banks.old.ports }
    requires room { MAX_WIDTH ≤ length word.old }
    requires spare { MAX_WIDTH ≤ length spare.old }
    ensures banks { AreBanksOf design.now banks.new.signals banks.new.ports }
    ensures words { HaveWords banks.new (λ k. put_option (slice_get design.now.drivers place) (words_of banks.old k)) }
{
    driver_word(design, place, banks, word, spare);
    put_at(design.drivers.get(place), word, banks);
}

/// Evaluates the drivers at these places in order, each over the words of those before it.
pub fn settle(design: &Design, order: &[usize], banks: &mut Banks)
    requires sound { IsSound design.now }
    requires places { (p i : ℕ) → slice_get order.now p ≡ Some i → i < length design.now.drivers }
    requires banks { AreBanksOf design.now banks.old.signals banks.old.ports }
    ensures banks { AreBanksOf design.now banks.new.signals banks.new.ports }
    ensures words { HaveWords banks.new (λ k. settle design.now.drivers order.now (words_of banks.old k)) }
{
    let mut word = room();
    let mut spare = room();
    for place in order {
        put(design, *place, banks, &mut word, &mut spare);
    }
}
