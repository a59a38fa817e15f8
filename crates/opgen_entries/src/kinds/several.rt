//! What a document says of products by several constants: its keys, their ranges, and the operator.
ghost use Rattle.std.specs.Prelude.{◌≡◌, IfOk};
ghost use Rattle.toml.specs.View.{items_view, table_view};
ghost use Rattle.opgen_entries.specs.kinds.Several.{stand, constants_outside, key_outside, several_of};

use crate::kinds::input_outside;
use opgen_document::{
    Key, Stand, Version, array_outside, constant_limit, count_at, extra_outside, format_at,
    is_searched, items_at, numerators, power_outside,
};
use opgen_operator::Several;
use opgen_ports::Recipe;
use std::alloc::{AllocError, Global};
use toml::{Table, Value};

/// Whether version 1 has the kind.
pub(crate) const IS_FIRST: bool = true;

/// How a key that not all kinds share stands in a document of a version.
pub(crate) fn stand(version: Version, key: Key) -> Stand
    ensures { result ≡ stand version key }
{
    match key {
        Key::Signed | Key::Width | Key::Lsb | Key::Constants => Stand::Needed,
        Key::Extra => Stand::needed_before_third(version),
        _ => Stand::Absent,
    }
}

// The length of the constants, or the first of them, that is out of bounds.
fn constants_outside(searched: bool, items: &[Value]) -> Option<i64>
    ensures { result ≡ constants_outside searched (items_view items.now) }
{
    array_outside(1, 8, constant_limit(searched), items)
}

/// What stands at one of these keys and is out of its range.
pub(crate) fn key_outside(table: &Table, key: Key) -> Option<i64>
    ensures { result ≡ key_outside (table_view table.now) key }
{
    match key {
        Key::Width => input_outside(table, key),
        Key::Lsb => power_outside(table, key),
        Key::Constants => constants_outside(is_searched(table), items_at(table, key)),
        Key::Extra => extra_outside(table),
        _ => None,
    }
}

pub(crate) fn several_of(alloc: Global, table: &Table) -> Result<Several, AllocError>
    ensures { IfOk result (λ several. several ≡ several_of (table_view table.now)) }
{
    Ok(Several {
        input: format_at(table, Key::Width, Key::Lsb),
        constants: numerators(alloc, items_at(table, Key::Constants))?,
        searched: is_searched(table),
        extra: count_at(table, Key::Extra),
        recipe: Recipe::Third,
    })
}
