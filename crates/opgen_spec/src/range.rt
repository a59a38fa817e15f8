//! Checks that the number at each key, or the length of its list, is within its range.
ghost use Rattle.std.specs.Prelude.{◌≡◌, ◌<◌, ◌^◌};
ghost use Rattle.toml.specs.View.{table_view};
ghost use Rattle.opgen_spec.specs.Faults.{class_outside, kind_outside, value_outside, is_always_asked, found, outside_among};

use crate::class::class_named;
use crate::fault::SpecFault;
use opgen_document::{
    Key, bits_outside, far_outside, flag_at, items_at, length_outside, number_at,
    numerator_outside, outside, text_at, value_at,
};
use opgen_entries::{factor_outside, key_outside, kind_of, name_outside};
use opgen_num::MAX_INPUT;
use opgen_ports::MAX_TARGET_NAME_LEN;
use toml::Table;

// The line's number, where its class is none.
fn class_outside(line: u64, name: &str) -> Option<i64>
    requires { line < 2 ^ 63 }
    ensures { result ≡ class_outside line name.now }
{
    if class_named(name).is_none() {
        Some(line as i64)
    } else {
        None
    }
}

// What is out of the range that the document's kind sets to a key.
#[tactic(auto, unfolding(opgen_entries::specs::kinds::entry))]
fn kind_outside(table: &Table, key: Key) -> Option<i64>
    ensures { result ≡ kind_outside (table_view table.now) key }
{
    let kind = kind_of(table)?;
    key_outside(kind, table, key)
}

// What is out of range at a key of the document, or of one of its lines.
fn value_outside(document: &Table, line: u64, table: &Table, key: Key) -> Option<i64>
    requires { line < 2 ^ 63 }
    ensures { result ≡ value_outside (table_view document.now) line (table_view table.now) key }
{
    match key {
        Key::Target => outside(
            1,
            MAX_TARGET_NAME_LEN as i64,
            text_at(table, key).len() as i64,
        ),
        Key::Period => outside(1, 1_000_000, number_at(table, key)),
        Key::Delay => length_outside(0, 16, items_at(table, key)),
        Key::InputName => name_outside(document, line, text_at(table, key)),
        Key::InputWidth => bits_outside(
            flag_at(table, Key::InputSigned),
            MAX_INPUT,
            number_at(table, key),
        ),
        Key::InputLsb => far_outside(table, key),
        Key::Coefficient => numerator_outside(table, key),
        Key::ScaledInput | Key::FactorA | Key::FactorB => {
            factor_outside(document, line, table, key)
        }
        Key::Class => class_outside(line, text_at(table, key)),
        Key::Base => outside(0, 1_000_000, number_at(table, key)),
        Key::PerBit => outside(0, 10_000, number_at(table, key)),
        _ => kind_outside(document, key),
    }
}

// Whether the key is asked for its range where it is not there too: a sum of products has to have
// terms.
fn is_always_asked(key: Key) -> bool
    ensures { result ≡ is_always_asked key }
{
    matches!(key, Key::Scaled)
}

// What stands at a key and is outside its range.
fn found(document: &Table, line: u64, table: &Table, key: Key) -> Option<i64>
    requires { line < 2 ^ 63 }
    ensures { result ≡ found (table_view document.now) line (table_view table.now) key }
{
    if value_at(table, key).is_some() || is_always_asked(key) {
        value_outside(document, line, table, key)
    } else {
        None
    }
}

/// The first of the keys whose value is outside its range.
pub(crate) fn outside_among(
    keys: &[Key],
    document: &Table,
    line: u64,
    table: &Table,
) -> Option<SpecFault>
    requires { line < 2 ^ 63 }
    ensures { result ≡ outside_among keys.now (table_view document.now) line (table_view table.now) }
{
    'keys: for key in keys {
        if let Some(found) = found(document, line, table, *key) {
            return Some(SpecFault::OutOfRange {
                key: *key,
                line,
                found,
            });
        }
    }
    None
}
