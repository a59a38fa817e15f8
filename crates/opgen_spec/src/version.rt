//! Checks the version of a document, and that the circuit that it asks for is of a sort that is made.
ghost use Rattle.std.specs.Prelude.{◌≡◌};
ghost use Rattle.toml.specs.View.{items_view, table_view};
ghost use Rattle.opgen_spec.specs.Made.{is_dadda, is_heap, are_few, has_few_terms, is_uncut, is_kind_made, has_six_inputs, is_plain, is_fourth_made, is_made};
ghost use Rattle.opgen_spec.specs.Faults.{is_version, bad_version};

use crate::fault::SpecFault;
use opgen_document::{Key, Version, count_at, items_at, number_at, text_at, value_at, version_of};
use opgen_entries::kind_of;
use opgen_operator::Kind;
use toml::{Table, Value};

fn is_dadda(table: &Table) -> bool
    ensures { result ≡ is_dadda (table_view table.now) }
{
    text_at(table, Key::Compressor) == "dadda"
}

// Whether the bits of a heap are added up, and not rows.
fn is_heap(table: &Table) -> bool
    ensures { result ≡ is_heap (table_view table.now) }
{
    is_dadda(table) || text_at(table, Key::Compressor) == "counters"
}

fn are_few(items: &[Value]) -> bool
    ensures { result ≡ are_few (items_view items.now) }
{
    items.len() <= 16
}

// Whether a sum of products has as few inputs and products as one of version 3.
fn has_few_terms(table: &Table) -> bool
    ensures { result ≡ has_few_terms (table_view table.now) }
{
    are_few(items_at(table, Key::Input)) && are_few(items_at(table, Key::Product))
}

// Whether no places of a filter's sums are dropped.
fn is_uncut(table: &Table) -> bool
    ensures { result ≡ is_uncut (table_view table.now) }
{
    match value_at(table, Key::OutLsb) {
        Some(_) => number_at(table, Key::OutLsb) <= number_at(table, Key::Lsb),
        None => true,
    }
}

fn is_kind_made(kind: Kind, table: &Table) -> bool
    ensures { result ≡ is_kind_made kind (table_view table.now) }
{
    match kind {
        Kind::Scale | Kind::Fir | Kind::Multiply => is_heap(table),
        Kind::Divide => value_at(table, Key::OutWidth).is_none(),
        Kind::Poly => is_dadda(table),
        Kind::Tfir => is_uncut(table),
        Kind::Sop => is_heap(table) && has_few_terms(table),
        Kind::Root | Kind::Mcm | Kind::Constdiv => true,
    }
}

// Whether the tables of the device have six inputs.
fn has_six_inputs(table: &Table) -> bool
    ensures { result ≡ has_six_inputs (table_view table.now) }
{
    match value_at(table, Key::Lut) {
        Some(_) => count_at(table, Key::Lut) == 6,
        None => true,
    }
}

// Whether no rounding is chosen, and tables have six inputs.
fn is_plain(table: &Table) -> bool
    ensures { result ≡ is_plain (table_view table.now) }
{
    value_at(table, Key::Rounding).is_none() && has_six_inputs(table)
}

// Whether circuits are made of a document of version 4.
fn is_fourth_made(table: &Table) -> bool
    ensures { result ≡ is_fourth_made (table_view table.now) }
{
    is_plain(table)
        && match kind_of(table) {
            Some(kind) => is_kind_made(kind, table),
            None => true,
        }
}

// Whether circuits are made of a document.
fn is_made(table: &Table) -> bool
    ensures { result ≡ is_made (table_view table.now) }
{
    match version_of(table) {
        Version::First | Version::Second | Version::Third => true,
        Version::Fourth => is_fourth_made(table),
    }
}

fn is_version(found: i64) -> bool
    ensures { result ≡ is_version found }
{
    found == 1 || found == 2 || found == 3 || found == 4
}

/// The version, if it is none of the four, or if no circuits are made of the document yet.
pub(crate) fn bad_version(table: &Table) -> Option<SpecFault>
    ensures { result ≡ bad_version (table_view table.now) }
{
    let found = number_at(table, Key::Version);
    if is_version(found) && is_made(table) {
        None
    } else {
        Some(SpecFault::BadVersion { found })
    }
}
