//! What a document says of a quotient by a small constant: its keys, their ranges, and the operator.
ghost use Rattle.std.specs.Prelude.{◌≡◌};
ghost use Rattle.toml.specs.View.{table_view};
ghost use Rattle.opgen_entries.specs.kinds.SmallDiv.{stand, key_outside, small_div_of};

use crate::kinds::input_outside;
use opgen_document::{
    Key, Stand, Version, count_at, flag_at, number_at, outside, power_outside, unsigned_at,
};
use opgen_num::MAX_DIVISOR;
use opgen_operator::SmallDiv;
use toml::Table;

/// Whether version 1 has the kind.
pub(crate) const IS_FIRST: bool = false;

/// How a key that not all kinds share stands in a document of a version.
pub(crate) fn stand(_version: Version, key: Key) -> Stand
    ensures { result ≡ stand _version key }
{
    match key {
        Key::Width | Key::Lsb | Key::Divisor => Stand::Needed,
        _ => Stand::Absent,
    }
}

/// What stands at one of these keys and is out of its range.
pub(crate) fn key_outside(table: &Table, key: Key) -> Option<i64>
    ensures { result ≡ key_outside (table_view table.now) key }
{
    match key {
        Key::Width => input_outside(table, key),
        Key::Lsb => power_outside(table, key),
        Key::Divisor => outside(2, i64::from(MAX_DIVISOR), number_at(table, key)),
        _ => None,
    }
}

pub(crate) fn small_div_of(table: &Table) -> SmallDiv
    ensures { result ≡ small_div_of (table_view table.now) }
{
    SmallDiv {
        input: unsigned_at(table, Key::Width, Key::Lsb),
        divisor: count_at(table, Key::Divisor),
        exact: flag_at(table, Key::Exact),
    }
}
