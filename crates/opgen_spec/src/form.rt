//! Checks the form of a document: unknown keys, missing keys, and values of the wrong type.
ghost use Rattle.std.specs.Prelude.{◌≡◌, find, not};
ghost use Rattle.std.specs.List.{position_from};
ghost use Rattle.toml.specs.View.{table_view};
ghost use Rattle.opgen_document.specs.Document.{names};
ghost use Rattle.opgen_entries.specs.Stands.{is_known};
ghost use Rattle.opgen_spec.specs.Faults.{unknown_among, is_missing, missing_among, kind_clashes, is_wrong_in, wrong_among};

use crate::fault::SpecFault;
use opgen_document::{Key, Version, is_wrong, value_at, version_of};
use opgen_entries::{clashes, is_known, is_needed, kind_of};
use opgen_operator::Kind;
use toml::Table;

// The place of the first key, in byte order, that is none of the keys.
fn first_unknown(keys: &[Key], version: Version, kind: Option<Kind>, table: &Table) -> Option<u64>
    ensures { result
        ≡ position_from (λ name. not (is_known keys.now version kind name)) 0 (names (table_view table.now)) }
{
    let mut at = 0;
    'names: for name in table.keys() {
        if !is_known(keys, version, kind, name.as_str()) {
            return Some(at);
        }
        at += 1;
    }
    None
}

/// The first key of a table of the document that is none of the keys.
pub(crate) fn unknown_among(
    keys: &[Key],
    document: &Table,
    line: u64,
    table: &Table,
) -> Option<SpecFault>
    ensures { result ≡ unknown_among keys.now (table_view document.now) line (table_view table.now) }
{
    let at = first_unknown(keys, version_of(document), kind_of(document), table)?;
    Some(SpecFault::UnknownKey { line, at })
}

fn is_missing(document: &Table, table: &Table, key: Key) -> bool
    ensures { result ≡ is_missing (table_view document.now) (table_view table.now) key }
{
    is_needed(version_of(document), kind_of(document), key) && value_at(table, key).is_none()
}

fn first_missing(keys: &[Key], document: &Table, table: &Table) -> Option<Key>
    ensures { result ≡ find (is_missing (table_view document.now) (table_view table.now)) keys.now }
{
    keys.iter()
        .copied()
        .find(|key| is_missing(document, table, *key))
}

/// The first of the keys that is needed and not there.
pub(crate) fn missing_among(
    keys: &[Key],
    document: &Table,
    line: u64,
    table: &Table,
) -> Option<SpecFault>
    ensures { result ≡ missing_among keys.now (table_view document.now) line (table_view table.now) }
{
    let key = first_missing(keys, document, table)?;
    Some(SpecFault::MissingKey { key, line })
}

// Whether the document's kind lets nothing stand at the key, beside the values of the document.
#[tactic(auto, unfolding(opgen_entries::specs::kinds::entry))]
fn kind_clashes(document: &Table, key: Key) -> bool
    ensures { result ≡ kind_clashes (table_view document.now) key }
{
    match kind_of(document) {
        Some(kind) => clashes(kind, document, key),
        None => false,
    }
}

fn is_wrong_in(document: &Table, table: &Table, key: Key) -> bool
    ensures { result ≡ is_wrong_in (table_view document.now) (table_view table.now) key }
{
    is_wrong(table, key) || (value_at(table, key).is_some() && kind_clashes(document, key))
}

fn first_wrong(keys: &[Key], document: &Table, table: &Table) -> Option<Key>
    ensures { result ≡ find (is_wrong_in (table_view document.now) (table_view table.now)) keys.now }
{
    keys.iter()
        .copied()
        .find(|key| is_wrong_in(document, table, *key))
}

/// The first of the keys whose value is not of its type, or does not go with those of others.
pub(crate) fn wrong_among(
    keys: &[Key],
    document: &Table,
    line: u64,
    table: &Table,
) -> Option<SpecFault>
    ensures { result ≡ wrong_among keys.now (table_view document.now) line (table_view table.now) }
{
    let key = first_wrong(keys, document, table)?;
    Some(SpecFault::WrongType { key, line })
}
