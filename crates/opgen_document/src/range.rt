//! Checks that a number, or an array and its numbers, is within bounds.
ghost use Rattle.std.specs.Prelude.{◌≡◌};
ghost use Rattle.toml.specs.View.{items_view, table_view};
ghost use Rattle.opgen_document.specs.Ranges.{outside, is_beyond, first_beyond, length_outside, array_outside, bits_outside, width_outside, near_outside, far_outside, power_outside_in, power_outside, out_width_outside, coefficients_outside, numerator_outside, denominator_outside, constant_limit, extra_outside, word_outside, compressor_outside, compressor_outside_in, compressor_at_outside, rounding_outside, overflow_outside, recurrence_outside, lut_outside};
ghost use Rattle.opgen_document.specs.Document.{is_searched};

use crate::document::{flag_at, items_at, number_at, text_at, value_at};
use crate::key::{Key, Version};
use crate::number::{coefficient, places_among};
use crate::version::version_of;
use opgen_num::{
    MAX_CONSTANT, MAX_DENOMINATOR, MAX_LSB, MAX_NEAR_LSB, MAX_NUMERATOR, MAX_SEARCHED_CONSTANT,
    MAX_WIDTH,
};
use toml::{Table, Value};

/// The number, where it is not within the bounds.
pub fn outside(low: i64, high: i64, n: i64) -> Option<i64>
    ensures { result ≡ outside low high n }
{
    if low <= n && n <= high { None } else { Some(n) }
}

fn is_beyond(limit: u64, n: i64) -> bool
    ensures { result ≡ is_beyond limit n }
{
    n.unsigned_abs() > limit
}

// The first of an array's numbers that is beyond a limit, above or below.
fn first_beyond(limit: u64, items: &[Value]) -> Option<i64>
    ensures { result ≡ first_beyond limit (items_view items.now) }
{
    let power = places_among(items);
    'items: for item in items {
        let n = coefficient(power, item);
        if is_beyond(limit, n) {
            return Some(n);
        }
    }
    None
}

/// The length of an array, where it is not within the bounds.
pub fn length_outside(least: u32, most: u32, items: &[Value]) -> Option<i64>
    ensures { result ≡ length_outside least most (items_view items.now) }
{
    outside(i64::from(least), i64::from(most), items.len() as i64)
}

/// The length of an array, or else its first number, that is out of bounds.
pub fn array_outside(least: u32, most: u32, limit: u64, items: &[Value]) -> Option<i64>
    ensures { result ≡ array_outside least most limit (items_view items.now) }
{
    match length_outside(least, most, items) {
        Some(length) => Some(length),
        None => first_beyond(limit, items),
    }
}

// The length of a text that is neither of two words.
fn word_outside(first: &str, second: &str, text: &str) -> Option<i64>
    ensures { result ≡ word_outside first.now second.now text.now }
{
    if text == first || text == second {
        None
    } else {
        Some(text.len() as i64)
    }
}

fn compressor_outside(name: &str) -> Option<i64>
    ensures { result ≡ compressor_outside name.now }
{
    word_outside("dadda", "counters", name)
}

fn compressor_outside_in(version: Version, name: &str) -> Option<i64>
    ensures { result ≡ compressor_outside_in version name.now }
{
    match version {
        Version::First | Version::Second | Version::Third => compressor_outside(name),
        Version::Fourth => if name == "rows" {
            None
        } else {
            compressor_outside(name)
        },
    }
}

/// The length of a compressor's name, if the document's version has none of the name.
pub fn compressor_at_outside(table: &Table) -> Option<i64>
    ensures { result ≡ compressor_at_outside (table_view table.now) }
{
    compressor_outside_in(version_of(table), text_at(table, Key::Compressor))
}

/// The length of a text that is no way of rounding.
pub fn rounding_outside(table: &Table) -> Option<i64>
    ensures { result ≡ rounding_outside (table_view table.now) }
{
    word_outside("down", "nearest", text_at(table, Key::Rounding))
}

/// The length of a text that is no way of fitting an output into its width.
pub fn overflow_outside(table: &Table) -> Option<i64>
    ensures { result ≡ overflow_outside (table_view table.now) }
{
    word_outside("saturate", "wrap", text_at(table, Key::Overflow))
}

/// The length of a text that is no recurrence of digits.
pub fn recurrence_outside(table: &Table) -> Option<i64>
    ensures { result ≡ recurrence_outside (table_view table.now) }
{
    word_outside("restoring", "nonrestoring", text_at(table, Key::Recurrence))
}

/// The number of inputs of a device's tables, where it is out of bounds.
pub fn lut_outside(table: &Table) -> Option<i64>
    ensures { result ≡ lut_outside (table_view table.now) }
{
    outside(4, 6, number_at(table, Key::Lut))
}

/// A width, where it has too many bits, or too few: signed inputs have two or more.
pub fn bits_outside(signed: bool, most: u32, n: i64) -> Option<i64>
    ensures { result ≡ bits_outside signed most n }
{
    let fewest = if signed { 2 } else { 1 };
    outside(fewest, i64::from(most), n)
}

/// The width of an input, where it is out of bounds.
pub fn width_outside(most: u32, table: &Table, key: Key) -> Option<i64>
    ensures { result ≡ width_outside most (table_view table.now) key }
{
    bits_outside(flag_at(table, Key::Signed), most, number_at(table, key))
}

/// The power of a lowest bit of a quotient or a root, where it is out of bounds.
pub fn near_outside(table: &Table, key: Key) -> Option<i64>
    ensures { result ≡ near_outside (table_view table.now) key }
{
    let most = i64::from(MAX_NEAR_LSB);
    outside(-most, most, number_at(table, key))
}

/// The power of a lowest bit, where it is out of the bounds of versions 3 and 4.
pub fn far_outside(table: &Table, key: Key) -> Option<i64>
    ensures { result ≡ far_outside (table_view table.now) key }
{
    let most = i64::from(MAX_LSB);
    outside(-most, most, number_at(table, key))
}

fn power_outside_in(version: Version, table: &Table, key: Key) -> Option<i64>
    ensures { result ≡ power_outside_in version (table_view table.now) key }
{
    match version {
        Version::First | Version::Second => near_outside(table, key),
        Version::Third | Version::Fourth => far_outside(table, key),
    }
}

/// The power of a lowest bit, where it is out of the bounds of the document's version.
pub fn power_outside(table: &Table, key: Key) -> Option<i64>
    ensures { result ≡ power_outside (table_view table.now) key }
{
    power_outside_in(version_of(table), table, key)
}

/// The width of an output that is chosen, where it is out of bounds.
pub fn out_width_outside(table: &Table) -> Option<i64>
    ensures { result ≡ out_width_outside (table_view table.now) }
{
    outside(2, i64::from(MAX_WIDTH), number_at(table, Key::OutWidth))
}

pub fn coefficients_outside(least: u32, most: u32, table: &Table) -> Option<i64>
    ensures { result ≡ coefficients_outside least most (table_view table.now) }
{
    let items = items_at(table, Key::Coefficients);
    array_outside(least, most, MAX_NUMERATOR, items)
}

/// A whole number over the denominator, where it is out of bounds.
pub fn numerator_outside(table: &Table, key: Key) -> Option<i64>
    ensures { result ≡ numerator_outside (table_view table.now) key }
{
    let most = MAX_NUMERATOR as i64;
    outside(-most, most, number_at(table, key))
}

pub fn denominator_outside(table: &Table) -> Option<i64>
    ensures { result ≡ denominator_outside (table_view table.now) }
{
    outside(1, MAX_DENOMINATOR, number_at(table, Key::Denominator))
}

/// Whether the graph with the fewest adders is searched for. Otherwise a fixed rule makes it.
pub fn is_searched(table: &Table) -> bool
    ensures { result ≡ is_searched (table_view table.now) }
{
    value_at(table, Key::Extra).is_some()
}

/// The greatest constant or tap of an adder graph, without its sign.
pub fn constant_limit(searched: bool) -> u64
    ensures { result ≡ constant_limit searched }
{
    if searched {
        MAX_SEARCHED_CONSTANT
    } else {
        MAX_CONSTANT
    }
}

/// The number of further adders of a graph, where it is out of bounds.
pub fn extra_outside(table: &Table) -> Option<i64>
    ensures { result ≡ extra_outside (table_view table.now) }
{
    outside(0, 2, number_at(table, Key::Extra))
}
