//! What a document says of a product of two inputs: its keys, their ranges, and the operator.
ghost use Rattle.std.specs.Prelude.{◌≡◌};
ghost use Rattle.toml.specs.View.{table_view};
ghost use Rattle.opgen_entries.specs.kinds.Product.{stand, key_outside, product_of};

use crate::kinds::input_outside;
use opgen_document::{
    Key, Stand, Version, compressor_at_outside, counters_at, format_at, out_width_outside,
    overflow_outside, power_outside, rounding_outside, small_at,
};
use opgen_num::Mode;
use opgen_operator::Product;
use opgen_ports::{Compressor, Recipe};
use toml::Table;

/// Whether version 1 has the kind.
pub(crate) const IS_FIRST: bool = true;

/// How a key that not all kinds share stands in a document of a version.
pub(crate) fn stand(version: Version, key: Key) -> Stand
    ensures { result ≡ stand version key }
{
    match key {
        Key::Signed | Key::WidthA | Key::LsbA | Key::WidthB | Key::LsbB | Key::OutLsb =>
            Stand::Needed,
        Key::OutWidth | Key::OutSigned => Stand::since_third(version),
        Key::Compressor => Stand::since_second(version),
        Key::Rounding | Key::Overflow => Stand::since_fourth(version),
        _ => Stand::Absent,
    }
}

/// What stands at one of these keys and is out of its range.
pub(crate) fn key_outside(table: &Table, key: Key) -> Option<i64>
    ensures { result ≡ key_outside (table_view table.now) key }
{
    match key {
        Key::WidthA | Key::WidthB => input_outside(table, key),
        Key::LsbA | Key::LsbB | Key::OutLsb => power_outside(table, key),
        Key::OutWidth => out_width_outside(table),
        Key::Compressor => compressor_at_outside(table),
        Key::Rounding => rounding_outside(table),
        Key::Overflow => overflow_outside(table),
        _ => None,
    }
}

pub(crate) fn product_of(table: &Table) -> Product
    ensures { result ≡ product_of (table_view table.now) }
{
    Product {
        a: format_at(table, Key::WidthA, Key::LsbA),
        b: format_at(table, Key::WidthB, Key::LsbB),
        out_lsb: small_at(table, Key::OutLsb),
        compressor: Compressor::of_bits(counters_at(table)),
        mode: Mode::Faithful,
        recipe: Recipe::Third,
    }
}
