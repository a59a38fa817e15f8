//! The outputs of a design over rows of inputs, in the way that is faster.
ghost use Rattle.std.specs.Prelude.{IfOk, IfSome};
ghost use Rattle.opgen_num.specs.Words.{AreRowsOfCells};
ghost use Rattle.opgen_design.specs.Run.{input_widths};
ghost use Rattle.opgen_design.specs.Sound.{HasNumbers, IsSound};
ghost use Rattle.opgen_runs.specs.Rows.{IsRunOf};
ghost use Rattle.opgen_sim.specs.Rows.{AreWidths, IsForStreams};

use crate::engine::FEW_CYCLES;
use crate::forward::depth;
use crate::sim::Sim;
use crate::streams::run_streams;
use crate::widths::Widths;
use opgen_design::{Design, Driver};
use opgen_num::Memory;
use std::alloc::Global;

/// The most rows of a table that is run in streams.
const MOST_ROWS: usize = 64;

/// Streams are taken if there are at least so many rows for each cycle of the depth. A step of all streams takes about as long as 18
/// rows one cycle at a time, and the first stream takes as many steps more as the design is deep.
const ROWS_TO_DEPTH: u32 = 32;

// In streams a table takes time for each of its rows, by halving or one row after another; a cycle at a time it takes one access. Many
// rows are looked up faster one cycle at a time.
fn has_few_rows(driver: &Driver) -> bool {
    match driver {
        Driver::Table {
            to: _,
            on: _,
            rows,
            other: _,
        } => rows.len() <= MOST_ROWS,
        Driver::Assign { .. }
        | Driver::Choice { .. }
        | Driver::Register { .. }
        | Driver::Output { .. } => true,
    }
}

// The depth of a design for which streams are the faster way.
fn depth_for_streams(
    alloc: Global,
    design: &Design,
    widths: &Widths,
    rows: u32,
) -> Result<Option<u32>, Memory>
    requires sound { IsSound design.now }
    requires widths { AreWidths design.now widths.now }
    ensures { IfOk result (λ o. IfSome o (λ depth. IsForStreams design.now rows depth)) }
{
    let drivers = design.drivers.as_slice();
    let some = !widths.inputs.is_empty() && !widths.outputs.is_empty();
    if some && rows >= FEW_CYCLES && drivers.iter().all(|driver| has_few_rows(driver)) {
        depth(alloc, design, rows / ROWS_TO_DEPTH)
    } else {
        Ok(None)
    }
}

// The numbers at the output ports, cycle after cycle.
fn run_cycles(
    alloc: Global,
    design: Design,
    widths: &Widths,
    rows: u32,
    cells: &[u128],
) -> Result<Vec<u128>, Memory>
    requires sound { IsSound design }
    requires widths { AreWidths design widths.now }
    requires rows { AreRowsOfCells (input_widths design) rows cells.now }
    ensures run { IfOk result (λ outputs. IsRunOf design rows cells.now outputs.items) }
    ensures numbers { IfOk result (λ outputs. HasNumbers design) }
{
    let columns = widths.inputs.len();
    let mut sim = Sim::from_design(alloc, design, rows)?;
    let mut outputs = vec![in alloc; 0; widths.outputs.len()]?;
    let mut results = Vec::new(alloc);
    let mut inputs = cells;
    let mut left = rows;
    'rows: while left > 0 {
        let (given, later) = inputs.split_at(columns);
        sim.step(given, &mut outputs);
        results.extend_from_slice(&outputs)?;
        inputs = later;
        left -= 1;
    }
    Ok(results)
}

/// The numbers at the output ports of a design over rows of numbers at its input ports, row after row, in the way that is faster: a
/// cycle at a time; or, if the design only feeds forward, in 256 streams, each of which runs a part of the rows.
///
/// A design of 2^32 or more ports, signals and drivers together is answered by `Memory`.
pub fn run_rows(
    alloc: Global,
    design: Design,
    rows: u32,
    cells: &[u128],
) -> Result<Vec<u128>, Memory>
    requires sound { IsSound design }
    requires rows { AreRowsOfCells (input_widths design) rows cells.now }
    ensures run { IfOk result (λ outputs. IsRunOf design rows cells.now outputs.items) }
    ensures numbers { IfOk result (λ outputs. HasNumbers design) }
{
    let widths = Widths::of(alloc, &design)?;
    match depth_for_streams(alloc, &design, &widths, rows)? {
        Some(depth) => run_streams(alloc, design, &widths, rows, cells, depth),
        None => run_cycles(alloc, design, &widths, rows, cells),
    }
}
