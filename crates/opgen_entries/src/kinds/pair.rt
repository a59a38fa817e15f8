//! What a document says of a quotient of two inputs, both signed or none: its keys, their ranges, and the operator.
ghost use Rattle.std.specs.Prelude.{◌≡◌};
ghost use Rattle.toml.specs.View.{table_view};
ghost use Rattle.opgen_entries.specs.kinds.Pair.{stand, key_outside, clashes, recurrence_in, pair_of};

use crate::kinds::input_outside;
use opgen_document::{
    Key, Stand, Version, flag_at, format_at, near_outside, out_width_outside, overflow_outside,
    recurrence_outside, small_at, text_at, version_of,
};
use opgen_operator::Pair;
use opgen_ports::Recurrence;
use toml::Table;

/// Whether version 1 has the kind.
pub(crate) const IS_FIRST: bool = true;

/// How a key that not all kinds share stands in a document of a version.
pub(crate) fn stand(version: Version, key: Key) -> Stand
    ensures { result ≡ stand version key }
{
    match key {
        Key::WidthA | Key::LsbA | Key::WidthB | Key::LsbB | Key::OutLsb => Stand::Needed,
        Key::Signed => Stand::since_third(version),
        Key::OutWidth | Key::OutSigned | Key::Overflow | Key::Recurrence => {
            Stand::since_fourth(version)
        }
        _ => Stand::Absent,
    }
}

/// What stands at one of these keys and is out of its range.
pub(crate) fn key_outside(table: &Table, key: Key) -> Option<i64>
    ensures { result ≡ key_outside (table_view table.now) key }
{
    match key {
        Key::WidthA | Key::WidthB => input_outside(table, key),
        Key::LsbA | Key::LsbB | Key::OutLsb => near_outside(table, key),
        Key::OutWidth => out_width_outside(table),
        Key::Overflow => overflow_outside(table),
        Key::Recurrence => recurrence_outside(table),
        _ => None,
    }
}

/// Whether the width of the output of an exact quotient is chosen.
pub(crate) fn clashes(table: &Table, key: Key) -> bool
    ensures { result ≡ clashes (table_view table.now) key }
{
    match key {
        Key::OutWidth => flag_at(table, Key::Exact),
        _ => false,
    }
}

// How the digits are found: in version 4 without restoring, unless the document says otherwise.
fn recurrence_in(version: Version, name: &str) -> Recurrence
    ensures { result ≡ recurrence_in version name.now }
{
    match version {
        Version::First | Version::Second | Version::Third => Recurrence::Restoring,
        Version::Fourth => if name == "restoring" {
            Recurrence::Restoring
        } else {
            Recurrence::Nonrestoring
        },
    }
}

pub(crate) fn pair_of(table: &Table) -> Pair
    ensures { result ≡ pair_of (table_view table.now) }
{
    Pair {
        a: format_at(table, Key::WidthA, Key::LsbA),
        b: format_at(table, Key::WidthB, Key::LsbB),
        out_lsb: small_at(table, Key::OutLsb),
        exact: flag_at(table, Key::Exact),
        recurrence: recurrence_in(version_of(table), text_at(table, Key::Recurrence)),
    }
}
