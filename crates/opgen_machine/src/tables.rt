//! Lays tables out by their addresses, and decides for which designs that takes little enough memory.
ghost use Rattle.std.specs.Prelude.{◌≡◌, ◌≤◌, ◌<◌, ◌^◌, ℕ, All, IfOk, IsTrue, OnOk, length, slice_index};
ghost use Rattle.opgen_num.specs.Words.{nat};
ghost use Rattle.opgen_machine.specs.Laid.{AreLaid, CanBeLaid, FitRows, Grown, IsFlat, IsLaid, IsSmall, number_at};

use opgen_design::{Design, Driver, Port, Signal};
use opgen_num::Word;
use std::alloc::{AllocError, Global};

/// The bits of an address up to which each table is laid out; one of longer addresses is where at least a quarter of them have rows.
const FEW_BITS: u32 = 6;

// Whether a number for each address is no waste.
fn are_few(rows: &[(Word, Word)]) -> bool
    ensures { IsTrue result → All (λ r. length r.0 ≤ 32) rows.now }
{
    let count = rows.len();
    rows.iter().all(|(address, _)| {
        let bits = address.width();
        bits <= FEW_BITS || bits <= 32 && (1usize << bits) / 4 <= count
    })
}

fn has_small_table(driver: &Driver) -> bool
    ensures { IsTrue result → IsSmall driver.now }
{
    match driver {
        Driver::Table {
            to: _,
            on: _,
            rows,
            other: _,
        } => are_few(rows.as_slice()),
        _ => true,
    }
}

fn have_narrow_signals(signals: &[Signal]) -> bool
    ensures { IsTrue result → All (λ s. s.width ≤ 64) signals.now }
{
    signals.iter().all(|signal| signal.width <= 64)
}

fn have_narrow_ports(ports: &[Port]) -> bool
    ensures { IsTrue result → All (λ p. p.width ≤ 64) ports.now }
{
    ports.iter().all(|port| port.width <= 64)
}

fn have_small_tables(drivers: &[Driver]) -> bool
    ensures { IsTrue result → All IsSmall drivers.now }
{
    drivers.iter().all(|driver| has_small_table(driver))
}

/// A true answer says that a machine can run the design: its words have at most 64 bits and its addresses 32. It is given where each
/// table has short addresses or rows for a quarter of them.
pub fn is_flat(design: &Design) -> bool
    ensures { IsTrue result → IsFlat design.now }
{
    have_narrow_signals(design.signals.as_slice())
        && have_narrow_ports(design.ports.as_slice())
        && have_small_tables(design.drivers.as_slice())
}

/// The number of a word of at most 64 bits.
pub(crate) fn number(word: Word) -> u64
    requires { length word ≤ 64 }
    ensures { result ≡ nat word }
{
    word.bits() as u64
}

// The number of a table's word for each address of so many bits; the first row of an address counts.
fn numbers(
    alloc: Global,
    rows: &[(Word, Word)],
    other: Word,
    bits: u32,
) -> Result<Vec<u64>, AllocError>
    requires rows { FitRows bits rows.now }
    requires bits { bits ≤ 32 }
    requires other { length other ≤ 64 }
    ensures length { IfOk result (λ v. length v.items ≡ 2 ^ bits) }
    ensures numbers { IfOk result (λ v. (n : ℕ) → n < 2 ^ bits → slice_index v.items n ≡ number_at rows.now other n) }
{
    let mut numbers = vec![in alloc; number(other); 1usize << bits]?;
    let mut left = rows.len();
    while left > 0 {
        left -= 1;
        let (address, word) = rows[left];
        numbers[number(address) as usize] = number(word);
    }
    Ok(numbers)
}

// Appends the numbers of a driver's table, if it is one with rows, and gives their place.
fn lay(alloc: Global, memory: &mut Vec<u64>, driver: &Driver) -> Result<usize, AllocError>
    requires { CanBeLaid driver.now }
    ensures grown { OnOk result (Grown memory.old.items memory.new.items) }
    ensures laid { IfOk result (λ from. (low : ℕ) → low ≤ length memory.old.items → IsLaid low memory.new.items driver.now from) }
{
    let from = memory.len();
    if let Driver::Table {
        to: _,
        on: _,
        rows,
        other,
    } = driver
        && let Some(first) = rows.as_slice().first()
    {
        let numbers = numbers(alloc, rows.as_slice(), *other, first.0.width())?;
        memory.extend_from_slice(&numbers)?;
    }
    Ok(from)
}

/// Appends the numbers of the tables among drivers, and gives a place for each driver.
pub(crate) fn lay_all(
    alloc: Global,
    memory: &mut Vec<u64>,
    drivers: &[Driver],
) -> Result<Vec<usize>, AllocError>
    requires { All CanBeLaid drivers.now }
    ensures grown { OnOk result (Grown memory.old.items memory.new.items) }
    ensures laid { IfOk result (λ places. AreLaid (length memory.old.items) memory.new.items drivers.now places.items) }
{
    let mut places = Vec::new(alloc);
    for driver in drivers {
        let place = lay(alloc, memory, driver)?;
        places.push(place)?;
    }
    Ok(places)
}
