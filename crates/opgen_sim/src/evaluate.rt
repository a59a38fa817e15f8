//! Evaluates the drivers of a design over the words of its signals and ports.
ghost use Rattle.std.specs.Prelude.{ℕ, ◌≡◌, ◌<◌, IfSome, Some, length, map, slice_get};
ghost use Rattle.opgen_design.specs.Value.{chosen};
ghost use Rattle.opgen_design.specs.Sound.{IsSound, signal_widths, target};
ghost use Rattle.opgen_runs.specs.Fitting.{AreNarrow, scope_of};
ghost use Rattle.opgen_runs.specs.Evaluate.{DriverFits, HaveWidths, IsThere, driver_word, hand_all_on, hand_on, put, settle};
ghost use Rattle.opgen_sim.specs.Ready.{all_words};
ghost use Rattle.opgen_sim.specs.Tables.{AreTables, HasRows, rows_of};

use crate::tables::{Rows, look_up};
use opgen_design::{Design, Driver};
use opgen_num::Word;
use opgen_runs::{chosen, value};

// What the driver's right side says over words.
fn driver_word(driver: &Driver, table: &Rows, signals: &[Word], ports: &[Word]) -> Word
    requires table { HasRows (rows_of driver.now) table.now }
    requires narrow { AreNarrow signals.now }
    requires fits { DriverFits signals.now ports.now driver.now }
    ensures { result ≡ driver_word (scope_of signals.now ports.now) driver.now }
{
    match driver {
        Driver::Assign { to: _, expr }
        | Driver::Register { to: _, expr }
        | Driver::Output { port: _, expr } => value(expr.expr(), signals, ports),
        Driver::Choice { to: _, on, yes, no } => chosen(
            value(on.expr(), signals, ports),
            value(yes.expr(), signals, ports),
            value(no.expr(), signals, ports),
        ),
        Driver::Table {
            to: _,
            on,
            rows: _,
            other,
        } => look_up(table, *other, value(on.expr(), signals, ports)),
    }
}

// Puts a driver's word at what it drives.
fn put(driver: &Driver, table: &Rows, signals: &mut [Word], ports: &mut [Word])
    requires table { HasRows (rows_of driver.now) table.now }
    requires narrow { AreNarrow signals.old }
    requires fits { DriverFits signals.old ports.old driver.now }
    requires there { IsThere (all_words signals.old ports.old) (target driver.now) }
    ensures signals { signals.new ≡ (put driver.now (all_words signals.old ports.old)).signals }
    ensures ports { ports.new ≡ (put driver.now (all_words signals.old ports.old)).ports }
{
    let word = driver_word(driver, table, signals, ports);
    match driver {
        Driver::Assign { to, expr: _ } => signals[*to] = word,
        Driver::Choice {
            to,
            on: _,
            yes: _,
            no: _,
        } => signals[*to] = word,
        Driver::Table {
            to,
            on: _,
            rows: _,
            other: _,
        } => signals[*to] = word,
        Driver::Register { to, expr: _ } => signals[*to] = word,
        Driver::Output { port, expr: _ } => ports[*port] = word,
    }
}

/// Evaluates the drivers at these places in order, each over the words of those before it.
pub fn settle(
    design: &Design,
    order: &[usize],
    tables: &[Rows],
    signals: &mut [Word],
    ports: &mut [Word],
)
    requires sound { IsSound design.now }
    requires places { (p i : ℕ) → slice_get order.now p ≡ Some i → i < length design.now.drivers }
    requires tables { AreTables design.now.drivers tables.now }
    requires widths { HaveWidths design.now (all_words signals.old ports.old) }
    ensures signals { signals.new ≡ (settle design.now.drivers order.now (all_words signals.old ports.old)).signals }
    ensures ports { ports.new ≡ (settle design.now.drivers order.now (all_words signals.old ports.old)).ports }
{
    for place in order {
        put(design.drivers.get(*place), &tables[*place], signals, ports);
    }
}

// Puts a register's next word at its signal: the new word where there is no enable or its word is 1, and else the word that it holds.
fn hand_on(
    enable: Option<usize>,
    driver: &Driver,
    signals: &[Word],
    ports: &[Word],
    next: &mut [Word],
)
    requires enable { IfSome enable (λ port. port < length ports.now) }
    requires narrow { AreNarrow signals.now }
    requires fits { DriverFits signals.now ports.now driver.now }
    requires there { IsThere (all_words signals.now ports.now) (target driver.now) }
    requires room { IsThere (record { signals = next.old; ports = ports.now }) (target driver.now) }
    ensures { next.new ≡ hand_on enable driver.now (all_words signals.now ports.now) next.old }
{
    if let Driver::Register { to, expr } = driver {
        let new = value(expr.expr(), signals, ports);
        let held = signals[*to];
        next[*to] = match enable {
            None => new,
            Some(port) => chosen(ports[port], new, held),
        };
    }
}

/// Puts the registers' next words at their signals, all from the words of one cycle: new words where the registers move, and else
/// those that they hold.
pub fn hand_all_on(design: &Design, signals: &[Word], ports: &[Word], next: &mut [Word])
    requires sound { IsSound design.now }
    requires widths { HaveWidths design.now (all_words signals.now ports.now) }
    requires room { map length next.old ≡ signal_widths design.now }
    ensures words { next.new ≡ hand_all_on design.now.enable design.now.drivers (all_words signals.now ports.now) next.old }
    ensures widths { map length next.new ≡ signal_widths design.now }
{
    for place in 0..design.drivers.len() {
        hand_on(
            design.enable,
            design.drivers.get(place),
            signals,
            ports,
            next,
        );
    }
}
