//! Checks that the value at each key is of its type.
ghost use Rattle.std.specs.Prelude.{◌≡◌};
ghost use Rattle.std.specs.List.{list_all};
ghost use Rattle.toml.specs.View.{view, items_view, table_view};
ghost use Rattle.opgen_document.specs.Types.{is_decimal, is_integer, is_table, are_coefficients, are_integers, are_tables, is_of, are_decimals, fits, clashes, is_wrong};

use crate::decimal::decimal_of;
use crate::document::{flag_at, items_at, items_of, value_at};
use crate::key::{Key, Sort};
use crate::number::are_texts;
use toml::{Table, Value};

fn is_decimal(value: &Value) -> bool
    ensures { result ≡ is_decimal (view value.now) }
{
    match value {
        Value::String(text) => decimal_of(text.as_str()).is_some(),
        _ => false,
    }
}

fn all_integers(items: &[Value]) -> bool
    ensures { result ≡ list_all (λ v. is_integer (view v)) items.now }
{
    items.iter().all(|item| item.is_integer())
}

fn are_integers(items: &[Value]) -> bool
    ensures { result ≡ are_integers (items_view items.now) }
{
    all_integers(items)
}

fn all_decimals(items: &[Value]) -> bool
    ensures { result ≡ list_all (λ v. is_decimal (view v)) items.now }
{
    items.iter().all(|item| is_decimal(item))
}

fn are_decimals(items: &[Value]) -> bool
    ensures { result ≡ are_decimals (items_view items.now) }
{
    all_decimals(items)
}

fn all_tables(items: &[Value]) -> bool
    ensures { result ≡ list_all (λ v. is_table (view v)) items.now }
{
    items.iter().all(|item| item.is_table())
}

fn are_tables(items: &[Value]) -> bool
    ensures { result ≡ are_tables (items_view items.now) }
{
    all_tables(items)
}

fn are_coefficients(items: &[Value]) -> bool
    ensures { result ≡ are_coefficients (items_view items.now) }
{
    are_integers(items) || are_decimals(items)
}

// What the value at a key has to be.
fn is_of(sort: Sort, value: &Value) -> bool
    ensures { result ≡ is_of sort (view value.now) }
{
    match sort {
        Sort::Number => value.is_integer(),
        Sort::Text => value.is_str(),
        Sort::Flag => value.is_bool(),
        Sort::Coefficients => are_coefficients(items_of(value)) && value.is_array(),
        Sort::Numbers => are_integers(items_of(value)) && value.is_array(),
        Sort::Tables => are_tables(items_of(value)) && value.is_array(),
    }
}

fn fits(key: Key, value: &Value) -> bool
    ensures { result ≡ fits key (view value.now) }
{
    is_of(key.row().sort, value)
}

// Whether there is a rounding beside exact outputs, a denominator beside decimal texts, which have their
// own, or a sign or an overflow of the output without its width.
fn clashes(table: &Table, key: Key) -> bool
    ensures { result ≡ clashes (table_view table.now) key }
{
    match key {
        Key::Rounding => flag_at(table, Key::Exact),
        Key::Denominator => are_texts(items_at(table, Key::Coefficients)),
        Key::OutSigned | Key::Overflow => value_at(table, Key::OutWidth).is_none(),
        _ => false,
    }
}

/// Whether there is a value at the key that is not of its type, or that does not go with those of other keys.
pub fn is_wrong(table: &Table, key: Key) -> bool
    ensures { result ≡ is_wrong (table_view table.now) key }
{
    match value_at(table, key) {
        Some(value) => !fits(key, value) || clashes(table, key),
        None => false,
    }
}
