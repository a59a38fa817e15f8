//! The rows of a counter's table: for each address, how many of its bits are 1; the highest bit may count twice.
ghost use Rattle.std.specs.Prelude.{◌≡◌, ◌≤◌, ◌<◌, IfOk};
ghost use Rattle.opgen_num.specs.Words.{word};
ghost use Rattle.opgen_gpc.specs.Recipe.{ones_of, counted_at, rows as rows_of};

use opgen_num::Word;
use std::alloc::{AllocError, Global};

// How many of the six bits of an address are 1.
fn ones(address: u32) -> u32
    ensures value { result ≡ ones_of (word 6 address) }
    ensures few { result ≤ 6 }
{
    let mut ones = 0;
    let mut left = address;
    'bits: for _bit in 0..6u32 {
        ones += left % 2;
        left /= 2;
    }
    ones
}

// What the six bits of an address count together, where the highest may count twice.
fn counted(address: u32, twice: bool) -> u32
    requires { address < 64 }
    ensures value { result ≡ counted_at twice address }
    ensures few { result ≤ 7 }
{
    if twice {
        ones(address) + address / 32
    } else {
        ones(address)
    }
}

/// The rows of a counter's table, one for each address.
pub fn rows(alloc: Global, twice: bool) -> Result<Vec<Word>, AllocError>
    ensures { IfOk result (λ rows. rows.items ≡ rows_of twice) }
{
    let mut rows = Vec::new(alloc);
    'addresses: for address in 0..64 {
        rows.push(Word::new(u128::from(counted(address, twice)), 3))?;
    }
    Ok(rows)
}
