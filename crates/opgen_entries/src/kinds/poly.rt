//! What a document says of a polynomial: its keys, their ranges, and the operator.
ghost use Rattle.std.specs.Prelude.{◌≡◌, IfOk};
ghost use Rattle.toml.specs.View.{table_view};
ghost use Rattle.opgen_entries.specs.kinds.Poly.{stand, key_outside, below_one_at, poly_of};

use opgen_document::{
    Key, Stand, Version, coefficients_outside, compressor_at_outside, count_at, denominator_of,
    denominator_outside, items_at, number_at, numerators, out_width_outside, outside,
    overflow_outside, small, small_at, width_outside,
};
use opgen_num::Format;
use opgen_operator::Poly;
use opgen_ports::Compressor;
use std::alloc::{AllocError, Global};
use toml::Table;

/// Whether version 1 has the kind.
pub(crate) const IS_FIRST: bool = false;

/// The most bits of the input, which is the limit of polynomials alone.
const MAX_WIDTH: u32 = 16;

/// How a key that not all kinds share stands in a document of a version.
pub(crate) fn stand(version: Version, key: Key) -> Stand
    ensures { result ≡ stand version key }
{
    match key {
        Key::Width | Key::OutLsb | Key::Coefficients => Stand::Needed,
        Key::OutWidth | Key::OutSigned => Stand::since_third(version),
        Key::Denominator => Stand::Optional,
        Key::Overflow | Key::Compressor => Stand::since_fourth(version),
        _ => Stand::Absent,
    }
}

/// What stands at one of these keys and is out of its range.
pub(crate) fn key_outside(table: &Table, key: Key) -> Option<i64>
    ensures { result ≡ key_outside (table_view table.now) key }
{
    match key {
        Key::Width => width_outside(MAX_WIDTH, table, key),
        Key::OutLsb => outside(-16, 0, number_at(table, key)),
        Key::OutWidth => out_width_outside(table),
        Key::Coefficients => coefficients_outside(2, 5, table),
        Key::Denominator => denominator_outside(table),
        Key::Overflow => overflow_outside(table),
        Key::Compressor => compressor_at_outside(table),
        _ => None,
    }
}

// The format of an unsigned input below 1.
fn below_one_at(table: &Table) -> Format
    ensures { result ≡ below_one_at (table_view table.now) }
{
    let width = count_at(table, Key::Width);
    Format {
        signed: false,
        width,
        lsb: small(-i64::from(width)),
    }
}

pub(crate) fn poly_of(alloc: Global, table: &Table) -> Result<Poly, AllocError>
    ensures { IfOk result (λ poly. poly ≡ poly_of (table_view table.now)) }
{
    Ok(Poly {
        input: below_one_at(table),
        out_lsb: small_at(table, Key::OutLsb),
        coefs: numerators(alloc, items_at(table, Key::Coefficients))?,
        den: denominator_of(table),
        compressor: Compressor::Dadda,
    })
}
