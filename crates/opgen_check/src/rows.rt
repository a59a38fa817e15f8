//! A design's run over rows of inputs, judged row by row.
ghost use Rattle.std.specs.Prelude.{◌≡◌, ◌<◌, ◌^◌, ◌↔◌, Err, IfOk, IsTrue, length, map};
ghost use Rattle.opgen_design.specs.Run.{input_widths};
ghost use Rattle.opgen_design.specs.Sound.{HasNumbers, IsSound};
ghost use Rattle.opgen_num.specs.Words.{FitWidths, AreRowsOfCells};
ghost use Rattle.opgen_operator.specs.Outputs.{inputs_of, outputs_of};
ghost use Rattle.opgen_operator.specs.Valid.{IsValidSpec};
ghost use Rattle.opgen_vec.specs.GoodRow.{IsGoodRow};
ghost use Rattle.opgen_vec.specs.Writing.{row_count};
ghost use Rattle.opgen_check.specs.Ports.{PortsAgree};
ghost use Rattle.opgen_check.specs.Verdict.{AreInputRows, AreOutputRows, IsChecked, IsVerdict, rows_up_to};

use crate::checked::{CheckFault, Checked};
use crate::ports::agree;
use opgen_design::Design;
use opgen_num::Memory;
use opgen_operator::Spec;
use opgen_sim::run_rows;
use opgen_vec::{Vectors, is_good_row};
use std::alloc::Global;

// Whether outputs are good for the inputs up to a row.
fn are_good_for(spec: &Spec, inputs: &Vectors, row: u32, outputs: &[u128]) -> bool
    requires valid { IsValidSpec spec.now }
    requires columns { inputs.now.columns ≡ length (inputs_of spec.now) }
    requires rows { AreInputRows spec.now (row_count inputs.now.columns inputs.now.cells.items) inputs.now.cells.items }
    requires there { row < row_count inputs.now.columns inputs.now.cells.items }
    requires outputs { FitWidths (map (λ p. p.format.width) (outputs_of spec.now)) outputs.now }
    ensures { IsTrue result ↔ IsGoodRow spec.now (rows_up_to (length (inputs_of spec.now)) row inputs.now.cells.items) outputs.now }
{
    let cells = inputs.cells.as_slice();
    is_good_row(
        spec,
        &cells[..(row as usize + 1) * inputs.columns as usize],
        outputs,
    )
}

// The verdict on rows of outputs.
fn judge_rows(
    spec: &Spec,
    inputs: &Vectors,
    latency: u32,
    columns: usize,
    outputs: &[u128],
) -> Checked
    requires valid { IsValidSpec spec.now }
    requires in_columns { inputs.now.columns ≡ length (inputs_of spec.now) }
    requires inputs { AreInputRows spec.now (row_count inputs.now.columns inputs.now.cells.items) inputs.now.cells.items }
    requires few { row_count inputs.now.columns inputs.now.cells.items < 2 ^ 32 }
    requires columns { columns ≡ length (outputs_of spec.now) }
    requires outputs { AreOutputRows spec.now (row_count inputs.now.columns inputs.now.cells.items) outputs.now }
    ensures { IsVerdict spec.now latency (row_count inputs.now.columns inputs.now.cells.items) inputs.now.cells.items outputs.now result }
{
    let rows = inputs.row_count() as u32;
    let mut left = outputs;
    let mut row = 0;
    'rows: while row < rows {
        let (given, later) = left.split_at(columns);
        if row >= latency && !are_good_for(spec, inputs, row - latency, given) {
            return Checked::Bad { row };
        }
        left = later;
        row += 1;
    }
    Checked::Good {
        rows: rows.saturating_sub(latency),
    }
}

// The verdict on a design's run over rows, where it has the specification's ports.
fn judge(
    alloc: Global,
    spec: &Spec,
    design: Design,
    inputs: &Vectors,
    latency: u32,
) -> Result<Checked, Memory>
    requires valid { IsValidSpec spec.now }
    requires sound { IsSound design }
    requires ports { PortsAgree spec.now design }
    requires columns { inputs.now.columns ≡ length (input_widths design) }
    requires rows { AreRowsOfCells (input_widths design) (row_count inputs.now.columns inputs.now.cells.items) inputs.now.cells.items }
    requires few { row_count inputs.now.columns inputs.now.cells.items < 2 ^ 32 }
    ensures checked { IfOk result (IsChecked spec.now design latency (row_count inputs.now.columns inputs.now.cells.items) inputs.now.cells.items) }
    ensures numbers { IfOk result (λ checked. HasNumbers design) }
{
    let rows = inputs.row_count() as u32;
    let columns = design.ports.len() - inputs.columns as usize;
    let outputs = run_rows(alloc, design, rows, &inputs.cells)?;
    Ok(judge_rows(spec, inputs, latency, columns, &outputs))
}

/// Runs a design over rows of its inputs, and judges each row of outputs from the latency on by the inputs up to so many rows
/// before it.
///
/// The latency is the caller's word: a row is good or not for that latency alone. A row whose divisor is 0 is good. The design
/// is used up by its run.
///
/// # Errors
///
/// `Ports` comes exactly where a port differs from that of the specification at its place in name, direction or width, or there
/// are more or fewer. Otherwise a design of 2^32 or more ports, signals and drivers together is answered by `Memory`.
pub fn check_rows(
    alloc: Global,
    spec: &Spec,
    design: Design,
    inputs: &Vectors,
    latency: u32,
) -> Result<Checked, CheckFault>
    requires valid { IsValidSpec spec.now }
    requires sound { IsSound design }
    requires columns { inputs.now.columns ≡ length (input_widths design) }
    requires rows { AreRowsOfCells (input_widths design) (row_count inputs.now.columns inputs.now.cells.items) inputs.now.cells.items }
    requires few { row_count inputs.now.columns inputs.now.cells.items < 2 ^ 32 }
    ensures ports { result ≡ Err CheckFault.Ports → ¬ PortsAgree spec.now design }
    ensures agree { IfOk result (λ checked. PortsAgree spec.now design) }
    ensures checked { IfOk result (IsChecked spec.now design latency (row_count inputs.now.columns inputs.now.cells.items) inputs.now.cells.items) }
    ensures numbers { IfOk result (λ checked. HasNumbers design) }
{
    if !agree(alloc, spec, design.ports.as_slice())? {
        return Err(CheckFault::Ports);
    }
    Ok(judge(alloc, spec, design, inputs, latency)?)
}
