//! Runs one check over the keys of a document, and then over the keys of the lines of its arrays.
ghost use Rattle.std.specs.Prelude.{◌≡◌, ◌<◌, ◌^◌};
ghost use Rattle.toml.specs.View.{view, items_view, table_view};
ghost use Rattle.opgen_spec.specs.Faults.{among, among_line, among_keys, among_lines, among_array, line_count, count_on, counted_on, among_arrays, check_fault};
ghost use Rattle.opgen_document.specs.Keys.{arrays};

use crate::fault::SpecFault;
use crate::form::{missing_among, unknown_among, wrong_among};
use crate::range::outside_among;
use opgen_document::{Array, Key, arrays, document_keys, items_at};
use toml::{Table, Value};

/// What a document and the lines of its arrays are asked for, key by key.
#[derive(Clone, Copy)]
pub(crate) enum Check {
    Unknown,
    Missing,
    WrongType,
    Range,
}

// The first fault among the keys of one table: of the document, or of a line.
fn among(
    check: Check,
    keys: &[Key],
    document: &Table,
    line: u64,
    table: &Table,
) -> Option<SpecFault>
    requires { line < 2 ^ 63 }
    ensures { result ≡ among check keys.now (table_view document.now) line (table_view table.now) }
{
    match check {
        Check::Unknown => unknown_among(keys, document, line, table),
        Check::Missing => missing_among(keys, document, line, table),
        Check::WrongType => wrong_among(keys, document, line, table),
        Check::Range => outside_among(keys, document, line, table),
    }
}

fn among_line(
    check: Check,
    keys: &[Key],
    document: &Table,
    line: u64,
    item: &Value,
) -> Option<SpecFault>
    requires { line < 2 ^ 63 }
    ensures { result ≡ among_line check keys.now (table_view document.now) line (view item.now) }
{
    match item {
        Value::Table(table) => among(check, keys, document, line, table),
        _ => None,
    }
}

// The first fault in the lines of an array.
fn among_lines(check: Check, keys: &[Key], document: &Table, items: &[Value]) -> Option<SpecFault>
    ensures { result ≡ among_lines check keys.now (table_view document.now) 1 (items_view items.now) }
{
    'lines: for (place, item) in items.iter().enumerate() {
        let fault = among_line(check, keys, document, place as u64 + 1, item);
        if fault.is_some() {
            return fault;
        }
    }
    None
}

fn among_array(check: Check, document: &Table, array: Array) -> Option<SpecFault>
    ensures { result ≡ among_array check (table_view document.now) array }
{
    among_lines(
        check,
        array.line_keys(),
        document,
        items_at(document, array.key()),
    )
}

fn line_count(document: &Table, array: Array) -> u64
    ensures { result ≡ line_count (table_view document.now) array }
{
    items_at(document, array.key()).len() as u64
}

fn count_on(before: u64, n: u64) -> u64
    ensures { result ≡ count_on before n }
{
    before.saturating_add(n)
}

// A fault whose line counts on over those of the arrays before it, if it is an unknown key.
fn counted_on(before: u64, fault: SpecFault) -> SpecFault
    ensures { result ≡ counted_on before fault }
{
    match fault {
        SpecFault::UnknownKey { line, at } => SpecFault::UnknownKey {
            line: count_on(before, line),
            at,
        },
        other => other,
    }
}

// The first fault in the lines of the arrays, one array after the other.
fn among_arrays(check: Check, document: &Table) -> Option<SpecFault>
    ensures { result ≡ among_arrays check (table_view document.now) 0 arrays }
{
    let all = arrays();
    let mut before = 0;
    'arrays: for array in all {
        if let Some(fault) = among_array(check, document, *array) {
            return Some(counted_on(before, fault));
        }
        before = count_on(before, line_count(document, *array));
    }
    None
}

fn among_keys(check: Check, document: &Table) -> Option<SpecFault>
    ensures { result ≡ among_keys check (table_view document.now) }
{
    among(check, document_keys(), document, 0, document)
}

/// The first fault of the document's keys, and then of the lines of its arrays.
pub(crate) fn check_fault(check: Check, document: &Table) -> Option<SpecFault>
    ensures { result ≡ check_fault check (table_view document.now) }
{
    match among_keys(check, document) {
        Some(fault) => Some(fault),
        None => among_arrays(check, document),
    }
}
