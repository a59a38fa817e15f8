//! The kinds of a document: their words, and what a document says of each, kind by kind.
ghost use Rattle.std.specs.Prelude.{◌≡◌, find, IfOk};
ghost use Rattle.std.specs.Str.{bytes_eq};
ghost use Rattle.toml.specs.View.{table_view};
ghost use Rattle.opgen_operator.specs.Operator.{kind_name};
ghost use Rattle.opgen_entries.specs.Entry.{input_outside};
ghost use Rattle.opgen_entries.specs.kinds.{kind_named, kinds_of, kind_of, entry_of};

mod pair;
mod poly;
mod product;
mod several;
mod single;
mod small_div;
mod sop;
mod sum;
mod taps;

use opgen_document::{Key, Stand, Version, count_at, text_at, version_of, width_outside};
use opgen_num::MAX_TAPS;
use opgen_operator::{Kind, Operator, most_input};
pub use sop::{factor_outside, name_outside};
use std::alloc::{AllocError, Global};
use toml::Table;

/// The kinds of versions 1 and 2, in the order of their words in the documents.
static EARLY_KINDS: [Kind; 9] = [
    Kind::Scale,
    Kind::Fir,
    Kind::Multiply,
    Kind::Divide,
    Kind::Root,
    Kind::Mcm,
    Kind::Constdiv,
    Kind::Poly,
    Kind::Tfir,
];

/// The kinds of versions 3 and 4.
static KINDS: [Kind; 10] = [
    Kind::Scale,
    Kind::Fir,
    Kind::Multiply,
    Kind::Divide,
    Kind::Root,
    Kind::Mcm,
    Kind::Constdiv,
    Kind::Poly,
    Kind::Tfir,
    Kind::Sop,
];

/// The kinds that documents of a version can name.
pub(crate) fn kinds_of(version: Version) -> &'static [Kind]
    ensures { result.now ≡ kinds_of version }
{
    match version {
        Version::First => &EARLY_KINDS,
        Version::Second => &EARLY_KINDS,
        Version::Third => &KINDS,
        Version::Fourth => &KINDS,
    }
}

fn kind_among(kinds: &[Kind], name: &str) -> Option<Kind>
    ensures { result ≡ find (λ one. bytes_eq (kind_name one) name.now) kinds.now }
{
    kinds.iter().copied().find(|kind| kind.name() == name)
}

// The kind of this name.
fn kind_named(version: Version, name: &str) -> Option<Kind>
    ensures { result ≡ kind_named version name.now }
{
    kind_among(kinds_of(version), name)
}

/// The kind that the document names.
pub fn kind_of(table: &Table) -> Option<Kind>
    ensures { result ≡ kind_of (table_view table.now) }
{
    kind_named(version_of(table), text_at(table, Key::Kind))
}

/// The width of an input, where it has too few bits, or more than the version allows.
pub(crate) fn input_outside(table: &Table, key: Key) -> Option<i64>
    ensures { result ≡ input_outside (table_view table.now) key }
{
    width_outside(most_input(count_at(table, Key::Version)), table, key)
}

/// Whether version 1 has the kind.
pub fn is_first_kind(kind: Kind) -> bool
    ensures { result ≡ (entry_of kind).first }
{
    match kind {
        Kind::Scale => sum::IS_FIRST,
        Kind::Fir => sum::IS_FIRST,
        Kind::Multiply => product::IS_FIRST,
        Kind::Divide => pair::IS_FIRST,
        Kind::Root => single::IS_FIRST,
        Kind::Mcm => several::IS_FIRST,
        Kind::Constdiv => small_div::IS_FIRST,
        Kind::Poly => poly::IS_FIRST,
        Kind::Tfir => taps::IS_FIRST,
        Kind::Sop => sop::IS_FIRST,
    }
}

/// How a key that not all kinds share stands in documents of a version and a kind.
pub(crate) fn stand(version: Version, kind: Kind, key: Key) -> Stand
    ensures { result ≡ (entry_of kind).stand version key }
{
    match kind {
        Kind::Scale => sum::stand(version, key),
        Kind::Fir => sum::stand(version, key),
        Kind::Multiply => product::stand(version, key),
        Kind::Divide => pair::stand(version, key),
        Kind::Root => single::stand(version, key),
        Kind::Mcm => several::stand(version, key),
        Kind::Constdiv => small_div::stand(version, key),
        Kind::Poly => poly::stand(version, key),
        Kind::Tfir => taps::stand(version, key),
        Kind::Sop => sop::stand(version, key),
    }
}

/// What stands at a key of a kind and is out of its range.
pub fn key_outside(kind: Kind, table: &Table, key: Key) -> Option<i64>
    ensures { result ≡ (entry_of kind).key_outside (table_view table.now) key }
{
    match kind {
        Kind::Scale => sum::key_outside(1, table, key),
        Kind::Fir => sum::key_outside(MAX_TAPS, table, key),
        Kind::Multiply => product::key_outside(table, key),
        Kind::Divide => pair::key_outside(table, key),
        Kind::Root => single::key_outside(table, key),
        Kind::Mcm => several::key_outside(table, key),
        Kind::Constdiv => small_div::key_outside(table, key),
        Kind::Poly => poly::key_outside(table, key),
        Kind::Tfir => taps::key_outside(table, key),
        Kind::Sop => sop::key_outside(table, key),
    }
}

/// Whether a kind lets nothing stand at the key, beside the values of others.
pub fn clashes(kind: Kind, table: &Table, key: Key) -> bool
    ensures { result ≡ (entry_of kind).clashes (table_view table.now) key }
{
    match kind {
        Kind::Divide => pair::clashes(table, key),
        Kind::Scale
        | Kind::Fir
        | Kind::Multiply
        | Kind::Root
        | Kind::Mcm
        | Kind::Constdiv
        | Kind::Poly
        | Kind::Tfir
        | Kind::Sop => false,
    }
}

/// The operator of a kind, from a document that passed its checks.
pub fn operator_of(alloc: Global, kind: Kind, table: &Table) -> Result<Operator, AllocError>
    ensures { IfOk result (λ op. op ≡ (entry_of kind).make (table_view table.now)) }
{
    match kind {
        Kind::Scale => Ok(Operator::Scale(sum::sum_of(alloc, table)?)),
        Kind::Fir => Ok(Operator::Fir(sum::sum_of(alloc, table)?)),
        Kind::Multiply => Ok(Operator::Multiply(product::product_of(table))),
        Kind::Divide => Ok(Operator::Divide(pair::pair_of(table))),
        Kind::Root => Ok(Operator::Root(single::single_of(table))),
        Kind::Mcm => Ok(Operator::Mcm(several::several_of(alloc, table)?)),
        Kind::Constdiv => Ok(Operator::Constdiv(small_div::small_div_of(table))),
        Kind::Poly => Ok(Operator::Poly(poly::poly_of(alloc, table)?)),
        Kind::Tfir => Ok(Operator::Tfir(taps::taps_of(alloc, table)?)),
        Kind::Sop => Ok(Operator::Sop(sop::sop_of(alloc, table)?)),
    }
}
