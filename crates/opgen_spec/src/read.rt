//! Reads the bytes of a TOML document as a specification, or returns its first error.
ghost use Rattle.std.specs.Prelude.{◌≡◌, IfOk, IsSomeAnd, MatchResult, Some};
ghost use Rattle.toml.specs.View.{table_view};
ghost use Rattle.opgen_document.specs.Document.{tree};
ghost use Rattle.opgen_spec.specs.Faults.{bad_name, has_kind, bad_kind, form_fault, value_fault, field_fault, read, Gives, IsNoTree};
ghost use Rattle.opgen_operator.specs.Valid.{IsValidSpec};
ghost use Rattle.opgen_spec.specs.Written.{IsAsWritten};

use crate::fault::SpecFault;
use crate::limits::limit_fault;
use crate::lines::{Check, check_fault};
use crate::make::spec_with;
use crate::version::bad_version;
use opgen_document::{Key, Version, count_at, parse, text_at, version_of};
use opgen_entries::{is_first_kind, kind_of};
use opgen_operator::{Kind, Spec, is_name_in, is_spec_name};
use std::alloc::Global;
use toml::Table;

fn document(alloc: Global, bytes: &[u8]) -> Result<Table, SpecFault>
    ensures { MatchResult result (λ table. tree bytes.now ≡ Some (table_view table))
        (IsNoTree (tree bytes.now)) }
{
    parse(alloc, bytes)?.ok_or(SpecFault::NotToml)
}

fn bad_name(table: &Table) -> Option<SpecFault>
    ensures { result ≡ bad_name (table_view table.now) }
{
    let name = text_at(table, Key::Name);
    if is_spec_name(name) && is_name_in(count_at(table, Key::Version), name) {
        None
    } else {
        Some(SpecFault::BadName)
    }
}

// Whether documents of the version have the kind.
#[tactic(auto, unfolding(opgen_entries::specs::kinds::entry))]
fn has_kind(version: Version, kind: Kind) -> bool
    ensures { result ≡ has_kind version kind }
{
    match version {
        Version::First => is_first_kind(kind),
        Version::Second | Version::Third | Version::Fourth => true,
    }
}

fn bad_kind(table: &Table) -> Option<SpecFault>
    ensures { result ≡ bad_kind (table_view table.now) }
{
    match kind_of(table) {
        Some(kind) if has_kind(version_of(table), kind) => None,
        _ => Some(SpecFault::BadKind),
    }
}

// The first fault of the keys' presence and types.
fn form_fault(table: &Table) -> Option<SpecFault>
    ensures { result ≡ form_fault (table_view table.now) }
{
    if let Some(fault) = check_fault(Check::Unknown, table) {
        return Some(fault);
    }
    if let Some(fault) = check_fault(Check::Missing, table) {
        return Some(fault);
    }
    check_fault(Check::WrongType, table)
}

// The first fault of the keys' values, each by itself.
fn value_fault(table: &Table) -> Option<SpecFault>
    ensures { result ≡ value_fault (table_view table.now) }
{
    if let Some(fault) = bad_version(table) {
        return Some(fault);
    }
    if let Some(fault) = bad_name(table) {
        return Some(fault);
    }
    if let Some(fault) = bad_kind(table) {
        return Some(fault);
    }
    check_fault(Check::Range, table)
}

fn field_fault(table: &Table) -> Option<SpecFault>
    ensures { result ≡ field_fault (table_view table.now) }
{
    match form_fault(table) {
        Some(fault) => Some(fault),
        None => value_fault(table),
    }
}

/// Reads the bytes of a specification, a TOML document, and answers its first fault, if it has one.
///
/// The faults are judged in the order of their variants, and within one of them in the order of the
/// keys, those of the document before those of the lines of its arrays.
pub fn read_spec(alloc: Global, bytes: &[u8]) -> Result<Spec, SpecFault>
    ensures gives { Gives result (read (tree bytes.now)) }
    ensures written { IfOk result (λ spec. IsSomeAnd (tree bytes.now) (λ ms. IsAsWritten ms spec)) }
    ensures valid { IfOk result IsValidSpec }
{
    let table = document(alloc, bytes)?;
    if let Some(fault) = field_fault(&table) {
        return Err(fault);
    }
    let Some(kind) = kind_of(&table) else {
        return Err(SpecFault::BadKind);
    };
    let spec = spec_with(alloc, kind, &table)?;
    if let Some(fault) = limit_fault(&spec) {
        return Err(fault);
    }
    Ok(spec)
}
