//! What a document says of a scale or a filter: its keys, their ranges, and the operator.
ghost use Rattle.std.specs.Prelude.{◌≡◌, IfOk};
ghost use Rattle.toml.specs.View.{table_view};
ghost use Rattle.opgen_entries.specs.kinds.Sum.{stand, key_outside, sum_of};

use crate::kinds::input_outside;
use opgen_document::{
    Key, Stand, Version, coefficients_outside, compressor_at_outside, counters_at, denominator_of,
    denominator_outside, flag_at, format_at, items_at, lut_outside, numerators, out_width_outside,
    overflow_outside, power_outside, rounding_outside, small_at,
};
use opgen_operator::Sum;
use opgen_ports::Compressor;
use opgen_ports::modes::mode_of_exact;
use std::alloc::{AllocError, Global};
use toml::Table;

/// Whether version 1 has the kind.
pub(crate) const IS_FIRST: bool = true;

/// How a key that not all kinds share stands in a document of a version.
pub(crate) fn stand(version: Version, key: Key) -> Stand
    ensures { result ≡ stand version key }
{
    match key {
        Key::Signed | Key::Width | Key::Lsb | Key::OutLsb | Key::Coefficients => Stand::Needed,
        Key::Denominator => Stand::Optional,
        Key::OutWidth | Key::OutSigned => Stand::since_third(version),
        Key::Compressor => Stand::since_second(version),
        Key::Rounding | Key::Overflow | Key::Lut => Stand::since_fourth(version),
        _ => Stand::Absent,
    }
}

/// What stands at one of these keys and is out of its range, of an operator with so many
/// coefficients at most.
pub(crate) fn key_outside(most: u32, table: &Table, key: Key) -> Option<i64>
    ensures { result ≡ key_outside most (table_view table.now) key }
{
    match key {
        Key::Width => input_outside(table, key),
        Key::Lsb | Key::OutLsb => power_outside(table, key),
        Key::OutWidth => out_width_outside(table),
        Key::Coefficients => coefficients_outside(1, most, table),
        Key::Denominator => denominator_outside(table),
        Key::Compressor => compressor_at_outside(table),
        Key::Rounding => rounding_outside(table),
        Key::Overflow => overflow_outside(table),
        Key::Lut => lut_outside(table),
        _ => None,
    }
}

pub(crate) fn sum_of(alloc: Global, table: &Table) -> Result<Sum, AllocError>
    ensures { IfOk result (λ sum. sum ≡ sum_of (table_view table.now)) }
{
    Ok(Sum {
        input: format_at(table, Key::Width, Key::Lsb),
        out_lsb: small_at(table, Key::OutLsb),
        coefs: numerators(alloc, items_at(table, Key::Coefficients))?,
        den: denominator_of(table),
        mode: mode_of_exact(flag_at(table, Key::Exact)),
        compressor: Compressor::of_bits(counters_at(table)),
        lut: 6,
    })
}
