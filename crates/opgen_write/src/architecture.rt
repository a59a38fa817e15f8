//! Writes the text of an architecture, statement by statement.
ghost use Rattle.std.specs.Prelude.{◌≡◌, ◌++◌, OnOk, IfOk, string_bytes, codes};
ghost use Rattle.std.specs.List.{flat_map, list_any};
ghost use Rattle.opgen_design.specs.Order.{is_register};
ghost use Rattle.opgen_vhdl.specs.DesignText.{initial_text, signal_text, is_output, driver_text, drivers_text};
ghost use Rattle.opgen_vhdl.specs.DesignText.{enable_text, end_enable_text, process_text, architecture_text};
ghost use Rattle.opgen_write.specs.Pages.{Comes};
ghost use Rattle.opgen_write.specs.Places.{stands_in};

use crate::expression::{port_name, put_range, put_word};
use crate::page::{Page, put_bytes, put_made};
use crate::statement::put_driver;
use opgen_design::{Design, Driver, Signal};
use opgen_io::Sink;
use opgen_num::Word;
use std::alloc::{AllocError, Global};

fn put_initial(out: &mut String, initial: Option<Word>) -> Result<(), AllocError>
    ensures { OnOk result (string_bytes out.new ≡ string_bytes out.old ++ initial_text initial) }
{
    match initial {
        Some(word) => {
            out.push_str(" := ")?;
            put_word(out, word)
        }
        None => Ok(()),
    }
}

#[tactic(auto, unfolding(opgen_vhdl::specs::DesignText::signal_text))]
fn put_signal(out: &mut String, signal: &Signal) -> Result<(), AllocError>
    ensures { OnOk result (string_bytes out.new ≡ string_bytes out.old ++ signal_text signal.now) }
{
    write!(out, "  signal {} : unsigned", signal.name.as_str())?;
    put_range(out, signal.width.saturating_sub(1), 0)?;
    put_initial(out, signal.initial)?;
    out.push_str(";\n")?;
    Ok(())
}

fn is_output(driver: &Driver) -> bool
    ensures { result ≡ is_output driver.now }
{
    matches!(driver, Driver::Output { .. })
}

fn has_register(design: &Design) -> bool
    ensures { result ≡ list_any is_register design.now.drivers }
{
    design
        .drivers
        .as_slice()
        .iter()
        .any(|driver| driver.is_register())
}

// Where a driver's statement stands: after `begin`, in the process of the registers, or before the end.
#[derive(Clone, Copy)]
enum Place {
    Statements,
    Process,
    Outputs,
}

fn stands_in(place: Place, driver: &Driver) -> bool
    ensures { result ≡ stands_in place driver.now }
{
    match place {
        Place::Statements => !driver.is_register() && !is_output(driver),
        Place::Process => driver.is_register(),
        Place::Outputs => is_output(driver),
    }
}

fn signal_line(alloc: Global, signal: &Signal) -> Result<String, AllocError>
    ensures { IfOk result (λ text. string_bytes text ≡ signal_text signal.now) }
{
    let mut text = String::new(alloc);
    put_signal(&mut text, signal)?;
    Ok(text)
}

fn statement(alloc: Global, design: &Design, driver: &Driver) -> Result<String, AllocError>
    ensures { IfOk result (λ text. string_bytes text ≡ driver_text design.now driver.now) }
{
    let mut text = String::new(alloc);
    put_driver(&mut text, design, driver)?;
    Ok(text)
}

fn put_signals<K: Sink>(alloc: Global, design: &Design, page: &mut Page, out: &mut K)
    ensures { let text = flat_map signal_text design.now.signals in
        Comes page.old (K.taken out.old) (K.faults out.old) text page.new (K.taken out.new) (K.faults out.new) }
{
    'signals: for signal in design.signals.as_slice() {
        put_made(page, out, signal_line(alloc, signal));
    }
}

fn put_drivers<K: Sink>(alloc: Global, design: &Design, place: Place, page: &mut Page, out: &mut K)
    ensures { let text = drivers_text design.now (stands_in place) in
        Comes page.old (K.taken out.old) (K.faults out.old) text page.new (K.taken out.new) (K.faults out.new) }
{
    'drivers: for driver in design.drivers.as_slice() {
        if stands_in(place, driver) {
            put_made(page, out, statement(alloc, design, driver));
        }
    }
}

// The head of the process, with the `if` round the registers of a design with an enable.
fn process_head(alloc: Global, design: &Design) -> Result<String, AllocError>
    ensures { let head = codes "  process (clk)\n  begin\n    if rising_edge(clk) then\n" in
        IfOk result (λ text. string_bytes text ≡ head ++ enable_text design.now design.now.enable) }
{
    let mut text = String::from_str(
        alloc,
        "  process (clk)\n  begin\n    if rising_edge(clk) then\n",
    )?;
    if let Some(port) = design.enable {
        writeln!(text, "      if {} = \"1\" then", port_name(design, port))?;
    }
    Ok(text)
}

fn put_end_enable<K: Sink>(design: &Design, page: &mut Page, out: &mut K)
    ensures { Comes page.old (K.taken out.old) (K.faults out.old) (end_enable_text design.now.enable) page.new (K.taken out.new) (K.faults out.new) }
{
    if design.enable.is_some() {
        put_bytes(page, out, b"      end if;\n");
    }
}

// The process of the registers, where there is one.
fn put_process<K: Sink>(alloc: Global, design: &Design, page: &mut Page, out: &mut K)
    ensures { Comes page.old (K.taken out.old) (K.faults out.old) (process_text design.now) page.new (K.taken out.new) (K.faults out.new) }
{
    if has_register(design) {
        put_made(page, out, process_head(alloc, design));
        put_drivers(alloc, design, Place::Process, page, out);
        put_end_enable(design, page, out);
        put_bytes(page, out, b"    end if;\n  end process;\n");
    }
}

pub(crate) fn put_architecture<K: Sink>(
    alloc: Global,
    design: &Design,
    page: &mut Page,
    out: &mut K,
)
    ensures { Comes page.old (K.taken out.old) (K.faults out.old) (architecture_text design.now) page.new (K.taken out.new) (K.faults out.new) }
{
    put_bytes(page, out, b"architecture rtl of ");
    put_bytes(page, out, design.name.as_str().as_bytes());
    put_bytes(page, out, b" is\n");
    put_signals(alloc, design, page, out);
    put_bytes(page, out, b"begin\n");
    put_drivers(alloc, design, Place::Statements, page, out);
    put_process(alloc, design, page, out);
    put_drivers(alloc, design, Place::Outputs, page, out);
    put_bytes(page, out, b"end architecture;\n");
}
