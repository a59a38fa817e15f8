//! What a document says of a sum of products: its keys, their ranges, the names of its inputs, and the operator.
ghost use Rattle.std.specs.Prelude.{◌≡◌, ◌<◌, ◌^◌, ◌++◌, position, length, IfOk, IfSome, OnOk};
ghost use Rattle.toml.specs.View.{view, items_view, table_view};
ghost use Rattle.std.specs.Str.{bytes_eq};
ghost use Rattle.opgen_document.specs.Document.{is_empty, in_table, in_tables};
ghost use Rattle.opgen_entries.specs.kinds.Sop.{stand, most_inputs, most_products, key_outside, name_in, input_named, is_first_named, name_outside, factor_outside, has_no_terms, scaled_outside, place_of, input_of, scaled_of, times_of, sop_of};

use opgen_document::{
    Key, Stand, Version, compressor_at_outside, count, count_at, counters_at, denominator_outside,
    flag_at, given_denominator, items_at, length_outside, lut_outside, number_at,
    numerator_outside, out_width_outside, overflow_outside, power_outside, rounding_outside,
    small_at, text_at, version_of,
};
use opgen_list::{Items, Text};
use opgen_num::{Format, MAX_SCALED};
use opgen_operator::{PortFormat, Scaled, Sop, Times, is_port_name};
use opgen_ports::Compressor;
use opgen_ports::modes::mode_of_exact;
use std::alloc::{AllocError, Global};
use toml::{Table, Value};

/// Whether version 1 has the kind.
pub(crate) const IS_FIRST: bool = false;

/// How a key that not all kinds share stands in a document of a version.
pub(crate) fn stand(version: Version, key: Key) -> Stand
    ensures { result ≡ stand version key }
{
    match key {
        Key::OutLsb | Key::Input => Stand::Needed,
        Key::Denominator | Key::Offset | Key::Scaled | Key::Product => Stand::Optional,
        Key::OutWidth | Key::OutSigned => Stand::since_third(version),
        Key::Compressor => Stand::since_second(version),
        Key::Rounding | Key::Overflow | Key::Lut => Stand::since_fourth(version),
        _ => Stand::Absent,
    }
}

// The name of an input, by its table.
fn name_in(input: &Value) -> &str
    ensures { result.now ≡ name_in (view input.now) }
{
    match input {
        Value::Table(table) => text_at(table, Key::InputName),
        _ => "",
    }
}

fn place_named(inputs: &[Value], name: &str) -> Option<usize>
    ensures value { result ≡ position (λ v. bytes_eq (name_in (view v)) name.now) inputs.now }
    ensures within { IfSome result (λ place. place < length inputs.now) }
{
    inputs.iter().position(|input| name_in(input) == name)
}

// The place of the first input that has the name.
fn input_named(inputs: &[Value], name: &str) -> Option<usize>
    ensures value { result ≡ input_named (items_view inputs.now) name.now }
    ensures within { IfSome result (λ place. place < length inputs.now) }
{
    place_named(inputs, name)
}

// Whether the first input of the name is that of the line.
fn is_first_named(inputs: &[Value], line: u64, name: &str) -> bool
    ensures { result ≡ is_first_named (items_view inputs.now) line name.now }
{
    match input_named(inputs, name) {
        Some(place) => place as u64 + 1 == line,
        None => false,
    }
}

/// The line's number, where its input may not have the name.
pub fn name_outside(document: &Table, line: u64, name: &str) -> Option<i64>
    requires { line < 2 ^ 63 }
    ensures { result ≡ name_outside (table_view document.now) line name.now }
{
    let inputs = items_at(document, Key::Input);
    if is_port_name(name)
        && name != text_at(document, Key::Name)
        && is_first_named(inputs, line, name)
    {
        None
    } else {
        Some(line as i64)
    }
}

/// The line's number, where no input has the name at a key.
pub fn factor_outside(document: &Table, line: u64, table: &Table, key: Key) -> Option<i64>
    requires { line < 2 ^ 63 }
    ensures { result ≡ factor_outside (table_view document.now) line (table_view table.now) key }
{
    if input_named(items_at(document, Key::Input), text_at(table, key)).is_some() {
        None
    } else {
        Some(line as i64)
    }
}

fn is_empty(items: &[Value]) -> bool
    ensures { result ≡ is_empty (items_view items.now) }
{
    items.is_empty()
}

// Whether there is no term but perhaps an offset.
fn has_no_terms(table: &Table) -> bool
    ensures { result ≡ has_no_terms (table_view table.now) }
{
    is_empty(items_at(table, Key::Scaled)) && is_empty(items_at(table, Key::Product))
}

// The number of constants times inputs, if it is out of bounds, or 0 if there are no terms at all.
fn scaled_outside(table: &Table) -> Option<i64>
    ensures { result ≡ scaled_outside (table_view table.now) }
{
    if has_no_terms(table) {
        Some(0)
    } else {
        length_outside(0, MAX_SCALED, items_at(table, Key::Scaled))
    }
}

// How many inputs the documents of a version may have.
fn most_inputs(version: Version) -> u32
    ensures { result ≡ most_inputs version }
{
    match version {
        Version::First | Version::Second | Version::Third => 16,
        Version::Fourth => 48,
    }
}

// How many products they may have.
fn most_products(version: Version) -> u32
    ensures { result ≡ most_products version }
{
    match version {
        Version::First | Version::Second | Version::Third => 16,
        Version::Fourth => 32,
    }
}

/// What stands at one of these keys and is out of its range.
pub(crate) fn key_outside(table: &Table, key: Key) -> Option<i64>
    ensures { result ≡ key_outside (table_view table.now) key }
{
    match key {
        Key::OutLsb => power_outside(table, key),
        Key::OutWidth => out_width_outside(table),
        Key::Denominator => denominator_outside(table),
        Key::Compressor => compressor_at_outside(table),
        Key::Offset => numerator_outside(table, key),
        Key::Input => length_outside(1, most_inputs(version_of(table)), items_at(table, key)),
        Key::Scaled => scaled_outside(table),
        Key::Product => {
            length_outside(0, most_products(version_of(table)), items_at(table, key))
        }
        Key::Rounding => rounding_outside(table),
        Key::Overflow => overflow_outside(table),
        Key::Lut => lut_outside(table),
        _ => None,
    }
}

// The place of the input of a name.
fn place_of(inputs: &[Value], name: &str) -> u32
    ensures { result ≡ place_of (items_view inputs.now) name.now }
{
    count(input_named(inputs, name).unwrap_or(0) as i64)
}

fn input_of(alloc: Global, table: &Table) -> Result<PortFormat, AllocError>
    ensures { IfOk result (λ port. port ≡ input_of (table_view table.now)) }
{
    let name = Text::from_str(alloc, text_at(table, Key::InputName))?;
    Ok(PortFormat {
        name,
        format: Format {
            signed: flag_at(table, Key::InputSigned),
            width: count_at(table, Key::InputWidth),
            lsb: small_at(table, Key::InputLsb),
        },
    })
}

// Appends the input of an item, if it is a table.
fn push_input(alloc: Global, inputs: &mut Items<PortFormat>, item: &Value) -> Result<(), AllocError>
    ensures { OnOk result (inputs.new ≡ inputs.old ++ in_table input_of (view item.now)) }
{
    if let Value::Table(table) = item {
        inputs.push(input_of(alloc, table)?)?;
    }
    Ok(())
}

fn inputs_of(alloc: Global, items: &[Value]) -> Result<Items<PortFormat>, AllocError>
    ensures { IfOk result (λ inputs. inputs ≡ in_tables input_of (items_view items.now)) }
{
    let mut inputs = Items::new(alloc);
    'items: for item in items {
        push_input(alloc, &mut inputs, item)?;
    }
    Ok(inputs)
}

fn scaled_of(inputs: &[Value], table: &Table) -> Scaled
    ensures { result ≡ scaled_of (items_view inputs.now) (table_view table.now) }
{
    Scaled {
        input: place_of(inputs, text_at(table, Key::ScaledInput)),
        coefficient: number_at(table, Key::Coefficient),
    }
}

// Appends the term of an item, if it is a table.
fn push_scaled(inputs: &[Value], terms: &mut Items<Scaled>, item: &Value) -> Result<(), AllocError>
    ensures { OnOk result
        (terms.new ≡ terms.old ++ in_table (scaled_of (items_view inputs.now)) (view item.now)) }
{
    if let Value::Table(table) = item {
        terms.push(scaled_of(inputs, table))?;
    }
    Ok(())
}

// The constants times inputs.
fn all_scaled(alloc: Global, inputs: &[Value], items: &[Value]) -> Result<Items<Scaled>, AllocError>
    ensures { IfOk result
        (λ terms. terms ≡ in_tables (scaled_of (items_view inputs.now)) (items_view items.now)) }
{
    let mut terms = Items::new(alloc);
    'items: for item in items {
        push_scaled(inputs, &mut terms, item)?;
    }
    Ok(terms)
}

fn times_of(inputs: &[Value], table: &Table) -> Times
    ensures { result ≡ times_of (items_view inputs.now) (table_view table.now) }
{
    Times {
        a: place_of(inputs, text_at(table, Key::FactorA)),
        b: place_of(inputs, text_at(table, Key::FactorB)),
        negative: flag_at(table, Key::Negative),
    }
}

// Appends the product of an item, if it is a table.
fn push_times(inputs: &[Value], products: &mut Items<Times>, item: &Value) -> Result<(), AllocError>
    ensures { OnOk result
        (products.new ≡ products.old ++ in_table (times_of (items_view inputs.now)) (view item.now)) }
{
    if let Value::Table(table) = item {
        products.push(times_of(inputs, table))?;
    }
    Ok(())
}

// The products of inputs.
fn all_times(alloc: Global, inputs: &[Value], items: &[Value]) -> Result<Items<Times>, AllocError>
    ensures { IfOk result
        (λ products. products ≡ in_tables (times_of (items_view inputs.now)) (items_view items.now)) }
{
    let mut products = Items::new(alloc);
    'items: for item in items {
        push_times(inputs, &mut products, item)?;
    }
    Ok(products)
}

pub(crate) fn sop_of(alloc: Global, table: &Table) -> Result<Sop, AllocError>
    ensures { IfOk result (λ sop. sop ≡ sop_of (table_view table.now)) }
{
    let inputs = items_at(table, Key::Input);
    Ok(Sop {
        inputs: inputs_of(alloc, inputs)?,
        scaled: all_scaled(alloc, inputs, items_at(table, Key::Scaled))?,
        products: all_times(alloc, inputs, items_at(table, Key::Product))?,
        offset: number_at(table, Key::Offset),
        den: given_denominator(table),
        out_lsb: small_at(table, Key::OutLsb),
        mode: mode_of_exact(flag_at(table, Key::Exact)),
        compressor: Compressor::of_bits(counters_at(table)),
        lut: 6,
    })
}
