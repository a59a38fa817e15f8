//! Makes the fields that specifications of several kinds have, from a document that passed its checks.
ghost use Rattle.std.specs.Prelude.{◌≡◌};
ghost use Rattle.toml.specs.View.{table_view};
ghost use Rattle.opgen_document.specs.Document.{format_at, unsigned_at, counters_at, rounding_named, rounding_at, overflow_at};

use crate::document::{count_at, flag_at, small_at, text_at};
use crate::key::Key;
use opgen_num::{Format, Overflow, Rounding};
use toml::Table;

/// The format of an input, by its two keys.
pub fn format_at(table: &Table, width: Key, lsb: Key) -> Format
    ensures { result ≡ format_at (table_view table.now) width lsb }
{
    Format {
        signed: flag_at(table, Key::Signed),
        width: count_at(table, width),
        lsb: small_at(table, lsb),
    }
}

/// The format of an input that is always unsigned.
pub fn unsigned_at(table: &Table, width: Key, lsb: Key) -> Format
    ensures { result ≡ unsigned_at (table_view table.now) width lsb }
{
    Format {
        signed: false,
        width: count_at(table, width),
        lsb: small_at(table, lsb),
    }
}

/// Whether the document asks for larger counters.
pub fn counters_at(table: &Table) -> bool
    ensures { result ≡ counters_at (table_view table.now) }
{
    text_at(table, Key::Compressor) == "counters"
}

// The rounding of a name.
fn rounding_named(name: &str) -> Option<Rounding>
    ensures { result ≡ rounding_named name.now }
{
    if name == "down" {
        Some(Rounding::Down)
    } else if name == "nearest" {
        Some(Rounding::Nearest)
    } else {
        None
    }
}

/// How outputs are rounded, if the document chooses it.
pub fn rounding_at(table: &Table) -> Option<Rounding>
    ensures { result ≡ rounding_at (table_view table.now) }
{
    rounding_named(text_at(table, Key::Rounding))
}

/// What becomes of a value that is out of the range of a chosen width.
pub fn overflow_at(table: &Table) -> Overflow
    ensures { result ≡ overflow_at (table_view table.now) }
{
    if text_at(table, Key::Overflow) == "wrap" {
        Overflow::Wrap
    } else {
        Overflow::Saturate
    }
}
