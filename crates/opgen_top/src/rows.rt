//! The text of a design's run over rows of inputs.
ghost use Rattle.std.specs.Prelude.{◌≡◌, ◌<◌, IfOk, length};
ghost use Rattle.opgen_num.specs.Words.{AreRowsOfCells};
ghost use Rattle.opgen_design.specs.Run.{input_widths};
ghost use Rattle.opgen_design.specs.Sound.{IsSound};
ghost use Rattle.opgen_top.specs.Running.{IsRunText};

use opgen_design::{Design, Dir};
use opgen_num::Memory;
use opgen_sim::{port_widths, run_rows};
use opgen_vec::{Vectors, write_rows};
use std::alloc::Global;

/// Rows of numbers at the input ports of a design, one for each cycle.
#[derive(Drop)]
pub(crate) struct Rows {
    pub count: u32,
    pub inputs: Vectors,
}

/// The text of the run of a design over rows of its inputs.
pub(crate) fn run_text(alloc: Global, design: Design, rows: &Rows) -> Result<Vec<u8>, Memory>
    requires sound { IsSound design }
    requires some_port { 0 < length design.ports }
    requires columns { rows.now.inputs.columns ≡ length (input_widths design) }
    requires rows { AreRowsOfCells (input_widths design) rows.now.count rows.now.inputs.cells.items }
    ensures { IfOk result (λ text. IsRunText design rows.now.count rows.now.inputs.cells.items text.items) }
{
    let in_widths = port_widths(alloc, design.ports.as_slice(), Dir::In)?;
    let out_widths = port_widths(alloc, design.ports.as_slice(), Dir::Out)?;
    let cells = run_rows(alloc, design, rows.count, &rows.inputs.cells)?;
    let outputs = Vectors {
        columns: out_widths.len() as u32,
        cells,
    };
    Ok(write_rows(alloc, &rows.inputs, &outputs, &in_widths, &out_widths)?)
}
