//! Makes the specification from a document that passed its checks, field by field.
ghost use Rattle.std.specs.Prelude.{◌≡◌, ◌++◌, IfOk, OnOk};
ghost use Rattle.toml.specs.View.{view, items_view, table_view};
ghost use Rattle.opgen_document.specs.Document.{text_at, items_at, in_table, in_tables};
ghost use Rattle.opgen_spec.specs.Spec.{line_of, spec_with};

use crate::class::class_named;
use opgen_document::{
    Key, count_at, flag_at, items_at, optional_count_at, optional_flag_at, overflow_at,
    rounding_at, text_at,
};
use opgen_entries::operator_of;
use opgen_list::{Items, Text};
use opgen_net::Class;
use opgen_operator::{DelayLine, Kind, Spec};
use std::alloc::{AllocError, Global};
use toml::{Table, Value};

fn line_of(table: &Table) -> DelayLine
    ensures { result ≡ line_of (table_view table.now) }
{
    DelayLine {
        class: class_named(text_at(table, Key::Class)).unwrap_or(Class::Wire),
        base: count_at(table, Key::Base),
        per_bit: count_at(table, Key::PerBit),
    }
}

// Appends the delay line of an item, if it is a table.
fn push_line(lines: &mut Items<DelayLine>, item: &Value) -> Result<(), AllocError>
    ensures { OnOk result (lines.new ≡ lines.old ++ in_table line_of (view item.now)) }
{
    if let Value::Table(table) = item {
        lines.push(line_of(table))?;
    }
    Ok(())
}

fn lines_of(alloc: Global, items: &[Value]) -> Result<Items<DelayLine>, AllocError>
    ensures { IfOk result (λ lines. lines ≡ in_tables line_of (items_view items.now)) }
{
    let mut lines = Items::new(alloc);
    'items: for item in items {
        push_line(&mut lines, item)?;
    }
    Ok(lines)
}

/// The texts and delay lines of a specification.
#[derive(Drop)]
struct Texts {
    name: Text,
    target: Text,
    delays: Items<DelayLine>,
}

fn texts_of(alloc: Global, table: &Table) -> Result<Texts, AllocError>
    ensures name { IfOk result (λ texts. texts.name ≡ text_at (table_view table.now) Key.Name) }
    ensures target { IfOk result (λ texts. texts.target ≡ text_at (table_view table.now) Key.Target) }
    ensures delays { IfOk result (λ texts. texts.delays ≡ in_tables line_of (items_at (table_view table.now) Key.Delay)) }
{
    let name = Text::from_str(alloc, text_at(table, Key::Name))?;
    let target = Text::from_str(alloc, text_at(table, Key::Target))?;
    let delays = lines_of(alloc, items_at(table, Key::Delay))?;
    Ok(Texts {
        name,
        target,
        delays,
    })
}

/// The specification that the keys give.
pub(crate) fn spec_with(alloc: Global, kind: Kind, table: &Table) -> Result<Spec, AllocError>
    ensures { IfOk result (λ spec. spec ≡ spec_with kind (table_view table.now)) }
{
    let texts = texts_of(alloc, table)?;
    let op = operator_of(alloc, kind, table)?;
    Ok(Spec {
        version: count_at(table, Key::Version),
        name: texts.name,
        op,
        exact: flag_at(table, Key::Exact),
        rounding: rounding_at(table),
        out_width: optional_count_at(table, Key::OutWidth),
        out_signed: optional_flag_at(table, Key::OutSigned),
        overflow: overflow_at(table),
        target: texts.target,
        period: count_at(table, Key::Period),
        delays: texts.delays,
    })
}
