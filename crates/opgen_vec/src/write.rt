//! The text of a run.
ghost use Rattle.std.specs.Prelude.{◌≡◌, ◌+◌, ◌<◌, ◌++◌, length, OnOk, IfOk};
ghost use Rattle.opgen_vec.specs.Rows.{spaced_text, row_text};
ghost use Rattle.opgen_vec.specs.Writing.{line_text, rows_text, HaveSameRows, row_count_of};

use crate::hex::{digit_count, put_word};
use crate::vectors::Vectors;
use opgen_num::Memory;
use std::alloc::{AllocError, Global};

fn put_spaced(out: &mut Vec<u8>, widths: &[u32], cells: &[u128]) -> Result<(), AllocError>
    requires { length cells.now ≡ length widths.now }
    ensures { OnOk result (out.new.items ≡ out.old.items ++ spaced_text widths.now cells.now) }
{
    for (index, width) in widths.iter().enumerate() {
        out.reserve(1 + digit_count(*width))?;
        out.push_reserved(b' ');
        put_word(out, *width, cells[index]);
    }
    Ok(())
}

fn put_row(out: &mut Vec<u8>, widths: &[u32], cells: &[u128]) -> Result<(), AllocError>
    requires { length cells.now ≡ length widths.now }
    ensures { OnOk result (out.new.items ≡ out.old.items ++ row_text widths.now cells.now) }
{
    let Some((width, widths)) = widths.split_first() else {
        return Ok(());
    };
    out.reserve(digit_count(*width))?;
    put_word(out, *width, cells[0]);
    put_spaced(out, widths, &cells[1..])
}

fn put_line(
    out: &mut Vec<u8>,
    in_widths: &[u32],
    out_widths: &[u32],
    inputs: &[u128],
    outputs: &[u128],
) -> Result<(), AllocError>
    requires inputs { length inputs.now ≡ length in_widths.now }
    requires outputs { length outputs.now ≡ length out_widths.now }
    ensures { OnOk result (out.new.items ≡ out.old.items ++ line_text in_widths.now out_widths.now inputs.now outputs.now) }
{
    put_row(out, in_widths, inputs)?;
    out.extend_from_slice(b" : ")?;
    put_row(out, out_widths, outputs)?;
    out.push(b'\n')?;
    Ok(())
}

/// The text of a run: a line for each cycle, with the row of the inputs, ` : ` and the row of the
/// outputs. Where a port's word is below 2 to its width, its digits are all of it.
///
/// A side without columns has as many empty rows as the other has rows.
pub fn write_rows(
    alloc: Global,
    inputs: &Vectors,
    outputs: &Vectors,
    in_widths: &[u32],
    out_widths: &[u32],
) -> Result<Vec<u8>, Memory>
    requires in_columns { inputs.now.columns ≡ length in_widths.now }
    requires out_columns { outputs.now.columns ≡ length out_widths.now }
    requires some { 0 < length in_widths.now + length out_widths.now }
    requires same_rows { HaveSameRows (length in_widths.now) (length out_widths.now) inputs.now.cells.items outputs.now.cells.items }
    ensures { IfOk result (λ text. text.items ≡ rows_text in_widths.now out_widths.now
        (row_count_of (length in_widths.now) (length out_widths.now) inputs.now.cells.items outputs.now.cells.items)
        inputs.now.cells.items outputs.now.cells.items) }
{
    let mut text = Vec::new(alloc);
    let mut left = inputs.row_count().max(outputs.row_count());
    let mut inputs = inputs.cells.as_slice();
    let mut outputs = outputs.cells.as_slice();
    'rows: while left > 0 {
        let (given, later_inputs) = inputs.split_at(in_widths.len());
        let (gives, later_outputs) = outputs.split_at(out_widths.len());
        put_line(&mut text, in_widths, out_widths, given, gives)?;
        inputs = later_inputs;
        outputs = later_outputs;
        left -= 1;
    }
    Ok(text)
}
