//! The rows of the table that divides a remainder and one digit by the constant.
ghost use Rattle.std.specs.Prelude.{◌≡◌, ◌≤◌, ◌<◌, IfOk};
ghost use Rattle.opgen_constdiv.specs.Rows.{IsSmall, rest_width as rest_width_of, digit_width as digit_width_of, row as row_of, rows as rows_of};

use opgen_num::{Word, bit_length, power};
use std::alloc::{AllocError, Global};

/// The bits of the greatest remainder.
pub fn rest_width(divisor: u32) -> u32
    requires small { IsSmall divisor }
    ensures value { result ≡ rest_width_of divisor }
    ensures some { 1 ≤ result }
    ensures few { result ≤ 5 }
{
    bit_length(u128::from(divisor - 1))
}

/// The bits of a digit.
pub fn digit_width(divisor: u32) -> u32
    requires small { IsSmall divisor }
    ensures value { result ≡ digit_width_of divisor }
    ensures some { 1 ≤ result }
    ensures few { result ≤ 5 }
{
    6 - rest_width(divisor)
}

// The quotient of an address above its remainder, or zero where the remainder in the address is none.
fn row(divisor: u32, address: u128) -> u128
    requires small { IsSmall divisor }
    requires address { address < 64 }
    ensures { result ≡ row_of divisor address }
{
    let size = u128::from(divisor);
    if address / power(digit_width(divisor)) >= size {
        return 0;
    }
    address / size * power(rest_width(divisor)) + address % size
}

/// The rows of a divisor's table, one for each address.
pub fn rows(alloc: Global, divisor: u32) -> Result<Vec<Word>, AllocError>
    requires small { IsSmall divisor }
    ensures { IfOk result (λ rows. rows.items ≡ rows_of divisor) }
{
    let mut rows = Vec::new(alloc);
    'addresses: for address in 0..64u32 {
        rows.push(Word::new(row(divisor, u128::from(address)), 6))?;
    }
    Ok(rows)
}
