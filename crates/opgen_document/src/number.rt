//! Reads arrays of whole numbers or of decimal texts as numerators over one denominator.
ghost use Rattle.std.specs.Prelude.{◌≡◌, ◌≤◌, ◌^◌, pos, IfOk};
ghost use Rattle.toml.specs.View.{view, items_view, table_view};
ghost use Rattle.opgen_document.specs.Numbers.{are_texts, places_in, places_among, coefficient, numerators, given_denominator, denominator_of};

use crate::decimal::{decimal_of, numerator};
use crate::document::{items_at, number_at, value_at};
use crate::key::Key;
use opgen_list::Items;
use std::alloc::{AllocError, Global};
use toml::{Table, Value};

/// Whether the coefficients are decimal texts.
pub(crate) fn are_texts(items: &[Value]) -> bool
    ensures { result ≡ are_texts (items_view items.now) }
{
    match items {
        [Value::String(_), ..] => true,
        _ => false,
    }
}

// How many digits an item has after its point.
fn places_in(item: &Value) -> u32
    ensures value { result ≡ places_in (view item.now) }
    ensures bound { result ≤ 9 }
{
    match item {
        Value::String(text) => match decimal_of(text.as_str()) {
            Some(decimal) => decimal.places,
            None => 0,
        },
        _ => 0,
    }
}

/// The greatest number of digits after a point.
pub fn places_among(items: &[Value]) -> u32
    ensures value { result ≡ places_among (items_view items.now) }
    ensures bound { result ≤ 9 }
{
    let mut most = 0;
    'items: for item in items {
        most = most.max(places_in(item));
    }
    most
}

/// An item as a numerator over ten to a power.
pub fn coefficient(power: u32, item: &Value) -> i64
    requires { power ≤ 9 }
    ensures { result ≡ coefficient power (view item.now) }
{
    match item {
        Value::Integer(n) => *n,
        Value::String(text) => match decimal_of(text.as_str()) {
            Some(decimal) => numerator(decimal, power),
            None => 0,
        },
        _ => 0,
    }
}

/// The numerators of an array, over the common denominator.
pub fn numerators(alloc: Global, items: &[Value]) -> Result<Items<i64>, AllocError>
    ensures { IfOk result (λ numbers. numbers ≡ numerators (items_view items.now)) }
{
    let power = places_among(items);
    let mut numbers = Items::new(alloc);
    'items: for item in items {
        numbers.push(coefficient(power, item))?;
    }
    Ok(numbers)
}

fn power_of_ten(power: u32) -> i64
    requires { power ≤ 9 }
    ensures { result ≡ pos (10 ^ power) }
{
    10u64.pow(power) as i64
}

/// The number at the key of the denominator, 1 if there is none.
pub fn given_denominator(table: &Table) -> i64
    ensures { result ≡ given_denominator (table_view table.now) }
{
    match value_at(table, Key::Denominator) {
        Some(_) => number_at(table, Key::Denominator),
        None => 1,
    }
}

/// The common denominator of the coefficients.
pub fn denominator_of(table: &Table) -> i64
    ensures { result ≡ denominator_of (table_view table.now) }
{
    let items = items_at(table, Key::Coefficients);
    if are_texts(items) {
        return power_of_ten(places_among(items));
    }
    given_denominator(table)
}
