//! What a document says of a transposed filter: its keys, their ranges, and the operator.
ghost use Rattle.std.specs.Prelude.{◌≡◌, ◌≤◌, length, All, IfOk};
ghost use Rattle.toml.specs.View.{items_view, table_view};
ghost use Rattle.opgen_ports.specs.OddParts.{odd_part_count};
ghost use Rattle.opgen_ports.specs.Ranges.{IsWithin};
ghost use Rattle.opgen_entries.specs.kinds.Taps.{stand, key_outside, parts_outside, taps_outside, out_lsb_of, taps_of};
ghost use Rattle.opgen_document.specs.Numbers.{numerators};

use crate::kinds::input_outside;
use opgen_document::{
    Key, Stand, Version, array_outside, coefficient, constant_limit, count_at, extra_outside,
    format_at, is_searched, items_at, numerators, out_width_outside, outside, overflow_outside,
    places_among, power_outside, rounding_outside, small_at, value_at,
};
use opgen_num::{MAX_SEARCHED_CONSTANT, MAX_SEARCHED_TAPS, MAX_TAPS, Mode};
use opgen_operator::{Taps, odd_part_count};
use opgen_ports::Recipe;
use std::alloc::{AllocError, Global};
use toml::{Table, Value};

/// Whether version 1 has the kind.
pub(crate) const IS_FIRST: bool = false;

/// How a key that not all kinds share stands in a document of a version.
pub(crate) fn stand(version: Version, key: Key) -> Stand
    ensures { result ≡ stand version key }
{
    match key {
        Key::Signed | Key::Width | Key::Lsb | Key::Taps => Stand::Needed,
        Key::Extra => Stand::needed_before_third(version),
        Key::OutLsb | Key::OutWidth | Key::OutSigned => Stand::since_third(version),
        Key::Rounding | Key::Overflow => Stand::since_fourth(version),
        _ => Stand::Absent,
    }
}

// How many different odd parts the numbers of an array have.
fn part_count(items: &[Value]) -> u32
    requires few { length items.now ≤ MAX_SEARCHED_TAPS }
    requires small { All (IsWithin MAX_SEARCHED_CONSTANT) (numerators (items_view items.now)) }
    ensures { result ≡ odd_part_count (numerators (items_view items.now)) }
{
    let power = places_among(items);
    let mut numbers = [0; MAX_SEARCHED_TAPS as usize];
    'items: for (place, item) in items.iter().enumerate() {
        numbers[place] = coefficient(power, item);
    }
    odd_part_count(&numbers[..items.len()])
}

// The number of different odd parts, where a search does not take as many.
fn parts_outside(items: &[Value]) -> Option<i64>
    requires few { length items.now ≤ MAX_SEARCHED_TAPS }
    requires small { All (IsWithin MAX_SEARCHED_CONSTANT) (numerators (items_view items.now)) }
    ensures { result ≡ parts_outside (items_view items.now) }
{
    outside(0, 8, i64::from(part_count(items)))
}

// The length of the taps, the first of them, or the number of their odd parts, that is out of
// bounds.
fn taps_outside(searched: bool, items: &[Value]) -> Option<i64>
    ensures { result ≡ taps_outside searched (items_view items.now) }
{
    if !searched {
        return array_outside(1, MAX_TAPS, constant_limit(false), items);
    }
    match array_outside(1, MAX_SEARCHED_TAPS, constant_limit(true), items) {
        Some(found) => Some(found),
        None => parts_outside(items),
    }
}

/// What stands at one of these keys and is out of its range.
pub(crate) fn key_outside(table: &Table, key: Key) -> Option<i64>
    ensures { result ≡ key_outside (table_view table.now) key }
{
    match key {
        Key::Width => input_outside(table, key),
        Key::Lsb | Key::OutLsb => power_outside(table, key),
        Key::OutWidth => out_width_outside(table),
        Key::Taps => taps_outside(is_searched(table), items_at(table, key)),
        Key::Extra => extra_outside(table),
        Key::Rounding => rounding_outside(table),
        Key::Overflow => overflow_outside(table),
        _ => None,
    }
}

// The power of the output's lowest bit: that of the input's if the document does not say it.
fn out_lsb_of(table: &Table) -> i32
    ensures { result ≡ out_lsb_of (table_view table.now) }
{
    match value_at(table, Key::OutLsb) {
        Some(_) => small_at(table, Key::OutLsb),
        None => small_at(table, Key::Lsb),
    }
}

pub(crate) fn taps_of(alloc: Global, table: &Table) -> Result<Taps, AllocError>
    ensures { IfOk result (λ taps. taps ≡ taps_of (table_view table.now)) }
{
    Ok(Taps {
        input: format_at(table, Key::Width, Key::Lsb),
        out_lsb: out_lsb_of(table),
        taps: numerators(alloc, items_at(table, Key::Taps))?,
        searched: is_searched(table),
        extra: count_at(table, Key::Extra),
        mode: Mode::Faithful,
        recipe: Recipe::Third,
    })
}
