//! Parses a document, and reads the value at a key as a number, text, flag or list.
ghost use Rattle.std.specs.Prelude.{◌≡◌, option_map, IfOk};
ghost use Rattle.toml.specs.View.{view, items_view, table_view};
ghost use Rattle.opgen_document.specs.Document.{tree, value_at, number_at, count_at, small_at, text_at, flag_at, items_of, items_at, optional_count_at, optional_flag_at, count, small};

use crate::key::Key;
use std::alloc::{AllocError, Global};
use toml::{Table, Value};

/// The tree of the bytes of a document; none if they are not UTF-8, or no TOML.
pub fn parse(alloc: Global, bytes: &[u8]) -> Result<Option<Table>, AllocError>
    ensures { IfOk result (λ found. option_map table_view found ≡ tree bytes.now) }
{
    let Ok(text) = std::str::from_utf8(bytes) else {
        return Ok(None);
    };
    match toml::table_from_str(alloc, text) {
        Ok(table) => Ok(Some(table)),
        Err(fault) if fault.is_memory() => Err(AllocError),
        Err(_) => Ok(None),
    }
}

/// The value at a key.
pub fn value_at<'a>(table: &'a Table, key: Key) -> Option<&'a Value>
    ensures { option_map (λ v. view v.now) result ≡ value_at (table_view table.now) key }
{
    table.get(key.name())
}

/// The whole number at a key, 0 where there is none.
pub fn number_at(table: &Table, key: Key) -> i64
    ensures { result ≡ number_at (table_view table.now) key }
{
    match value_at(table, key) {
        Some(Value::Integer(n)) => *n,
        _ => 0,
    }
}

/// A number as a count of 32 bits, 0 where it is none.
pub fn count(n: i64) -> u32
    ensures { result ≡ count n }
{
    if 0 <= n && n < 4_294_967_296 {
        n as u32
    } else {
        0
    }
}

/// The number at a key as a count of 32 bits, 0 where it is none.
pub fn count_at(table: &Table, key: Key) -> u32
    ensures { result ≡ count_at (table_view table.now) key }
{
    count(number_at(table, key))
}

/// A number in 32 bits with a sign, 0 where it does not fit.
pub fn small(n: i64) -> i32
    ensures { result ≡ small n }
{
    if -2_147_483_648 <= n && n < 2_147_483_648 {
        n as i32
    } else {
        0
    }
}

/// The number at a key in 32 bits with a sign, 0 where it does not fit.
pub fn small_at(table: &Table, key: Key) -> i32
    ensures { result ≡ small_at (table_view table.now) key }
{
    small(number_at(table, key))
}

/// The text at a key, empty where there is none.
pub fn text_at<'a>(table: &'a Table, key: Key) -> &'a str
    ensures { result.now ≡ text_at (table_view table.now) key }
{
    match value_at(table, key) {
        Some(Value::String(text)) => text.as_str(),
        _ => "",
    }
}

/// The truth value at a key, false where there is none.
pub fn flag_at(table: &Table, key: Key) -> bool
    ensures { result ≡ flag_at (table_view table.now) key }
{
    match value_at(table, key) {
        Some(Value::Boolean(flag)) => *flag,
        _ => false,
    }
}

/// The number at a key as a count of 32 bits, if the document has the key.
pub fn optional_count_at(table: &Table, key: Key) -> Option<u32>
    ensures { result ≡ optional_count_at (table_view table.now) key }
{
    match value_at(table, key) {
        Some(_) => Some(count_at(table, key)),
        None => None,
    }
}

/// The truth value at a key, if the document has the key.
pub fn optional_flag_at(table: &Table, key: Key) -> Option<bool>
    ensures { result ≡ optional_flag_at (table_view table.now) key }
{
    match value_at(table, key) {
        Some(_) => Some(flag_at(table, key)),
        None => None,
    }
}

/// The items of an array, none of another value.
pub fn items_of(value: &Value) -> &[Value]
    ensures { items_view result.now ≡ items_of (view value.now) }
{
    match value {
        Value::Array(items) => items.as_slice(),
        _ => &[],
    }
}

/// The items of the array at a key, none where there is no array.
pub fn items_at<'a>(table: &'a Table, key: Key) -> &'a [Value]
    ensures { items_view result.now ≡ items_at (table_view table.now) key }
{
    match value_at(table, key) {
        Some(value) => items_of(value),
        None => &[],
    }
}
