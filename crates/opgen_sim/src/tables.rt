//! Tables by their addresses.
ghost use Rattle.std.specs.Prelude.{◌≡◌, IfOk, nat_eq, unwrap_or};
ghost use Rattle.std.specs.HashMap.{get};
ghost use Rattle.opgen_num.specs.Words.{nat};
ghost use Rattle.opgen_sim.specs.Tables.{AreTables, HasRows, rows_of};

use opgen_design::Driver;
use opgen_num::Word;
use std::alloc::{AllocError, Global};
use std::collections::HashMap;

/// The word of each address of a table.
pub type Rows = HashMap<u128, Word>;

// From the last row on, so that the first of an address stays.
fn by_address(alloc: Global, rows: &[(Word, Word)]) -> Result<Rows, AllocError>
    ensures { IfOk result (λ m. HasRows rows.now m) }
{
    let mut words = HashMap::new(alloc);
    let mut left = rows.len();
    while left > 0 {
        left -= 1;
        words.insert(rows[left].0.bits(), rows[left].1)?;
    }
    Ok(words)
}

fn table(alloc: Global, driver: &Driver) -> Result<Rows, AllocError>
    ensures { IfOk result (λ m. HasRows (rows_of driver.now) m) }
{
    match driver {
        Driver::Table {
            to: _,
            on: _,
            rows,
            other: _,
        } => by_address(alloc, rows.as_slice()),
        _ => Ok(HashMap::new(alloc)),
    }
}

/// The rows of each driver by their addresses; none where it is no table.
pub fn tables(alloc: Global, drivers: &[Driver]) -> Result<Vec<Rows>, AllocError>
    ensures { IfOk result (λ ts. AreTables drivers.now ts.items) }
{
    let mut tables = Vec::new(alloc);
    for driver in drivers {
        tables.push(table(alloc, driver)?)?;
    }
    Ok(tables)
}

/// The word at an address, and the other word where there is none.
pub fn look_up(rows: &Rows, other: Word, address: Word) -> Word
    ensures { result ≡ unwrap_or (get nat_eq rows.now (nat address)) other }
{
    rows.get(&address.bits()).copied().unwrap_or(other)
}
