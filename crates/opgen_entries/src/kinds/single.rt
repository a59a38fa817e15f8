//! What a document says of a square root: its keys, their ranges, and the operator.
ghost use Rattle.std.specs.Prelude.{◌≡◌};
ghost use Rattle.toml.specs.View.{table_view};
ghost use Rattle.opgen_entries.specs.kinds.Single.{stand, key_outside, single_of};

use crate::kinds::input_outside;
use opgen_document::{Key, Stand, Version, flag_at, near_outside, small_at, unsigned_at};
use opgen_operator::Single;
use toml::Table;

/// Whether version 1 has the kind.
pub(crate) const IS_FIRST: bool = true;

/// How a key that not all kinds share stands in a document of a version.
pub(crate) fn stand(_version: Version, key: Key) -> Stand
    ensures { result ≡ stand _version key }
{
    match key {
        Key::Width | Key::Lsb | Key::OutLsb => Stand::Needed,
        _ => Stand::Absent,
    }
}

/// What stands at one of these keys and is out of its range.
pub(crate) fn key_outside(table: &Table, key: Key) -> Option<i64>
    ensures { result ≡ key_outside (table_view table.now) key }
{
    match key {
        Key::Width => input_outside(table, key),
        Key::Lsb | Key::OutLsb => near_outside(table, key),
        _ => None,
    }
}

pub(crate) fn single_of(table: &Table) -> Single
    ensures { result ≡ single_of (table_view table.now) }
{
    Single {
        input: unsigned_at(table, Key::Width, Key::Lsb),
        out_lsb: small_at(table, Key::OutLsb),
        exact: flag_at(table, Key::Exact),
    }
}
