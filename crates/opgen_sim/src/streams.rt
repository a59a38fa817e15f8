//! The outputs of a design that only feeds forward over rows of inputs, in 256 streams: each runs a part of the rows.
ghost use Rattle.std.specs.Prelude.{◌≡◌, ◌+◌, ◌*◌, ◌^◌, ◌<◌, ◌≤◌, if◌then◌else◌, IfOk, length, nat_lt};
ghost use Rattle.std.specs.List.{sum};
ghost use Rattle.opgen_num.specs.Words.{AreRowsOfCells};
ghost use Rattle.opgen_design.specs.Run.{input_widths};
ghost use Rattle.opgen_design.specs.Sound.{HasNumbers, IsSound};
ghost use Rattle.opgen_lanes.specs.Steps.{AreNew};
ghost use Rattle.opgen_runs.specs.Rows.{IsRunOf};
ghost use Rattle.opgen_streams.specs.Streams.{streams};
ghost use Rattle.opgen_sim.specs.Rows.{AreWidths, IsForStreams};

use crate::widths::Widths;
use opgen_design::Design;
use opgen_lanes::Lanes;
use opgen_num::Memory;
use opgen_streams::{STREAMS, pack_apart, unpack_apart};
use std::alloc::{AllocError, Global};
use std::simd::prelude::*;

// A vector for each bit of words of these widths.
fn vectors(alloc: Global, widths: &[u32]) -> Result<Vec<u64x4>, AllocError>
    ensures { IfOk result (λ vectors. length vectors.items ≡ sum widths.now) }
{
    let mut vectors = Vec::new(alloc);
    for width in widths {
        vectors.resize(vectors.len() + *width as usize, u64x4::splat(0))?;
    }
    Ok(vectors)
}

// How far the streams' first rows are apart, so that the streams share all rows behind the first `depth`.
fn rows_apart(rows: u32, depth: u32) -> usize
    requires { depth < rows }
    ensures some { 0 < result }
    ensures small { result ≤ 2 ^ 32 }
    ensures all { rows ≤ depth + streams * result }
{
    ((rows - depth) as usize).div_ceil(STREAMS)
}

// In how many streams the outputs count, while the first stream runs this row. It begins as the run does; the registers of each other
// stream need `depth` rows until they hold what they hold in the run.
fn streams_at(row: usize, depth: u32) -> usize
    ensures { result ≡ (if nat_lt row depth then 1 else streams) }
{
    if row < depth as usize { 1 } else { STREAMS }
}

// The numbers at the output ports of the lanes' design, which has this depth, row after row.
//
// The streams begin with the initial words, at rows that are `apart` rows apart, and each runs on over the first `depth` rows of the
// next stream. Of each stream but the first, the outputs of its first `depth` rows are left out: the stream before it gives them.
fn run_lanes(
    alloc: Global,
    lanes: &mut Lanes,
    widths: &Widths,
    rows: u32,
    cells: &[u128],
    depth: u32,
) -> Result<Vec<u128>, AllocError>
    requires new { AreNew lanes.old.design lanes.old }
    requires sound { IsSound lanes.old.design }
    requires numbers { HasNumbers lanes.old.design }
    requires widths { AreWidths lanes.old.design widths.now }
    requires rows { AreRowsOfCells (input_widths lanes.old.design) rows cells.now }
    requires depth { IsForStreams lanes.old.design rows depth }
    ensures { IfOk result (λ outputs. IsRunOf lanes.old.design rows cells.now outputs.items) }
{
    let mut inputs = vectors(alloc, &widths.inputs)?;
    let mut outputs = vectors(alloc, &widths.outputs)?;
    let mut results = vec![in alloc; 0; rows as usize * widths.outputs.len()]?;
    let apart = rows_apart(rows, depth);
    let end = depth as usize + apart;
    let mut row = 0;
    'steps: while row < end {
        pack_apart(cells, row, apart, &widths.inputs, &mut inputs);
        lanes.step(&inputs, &mut outputs);
        let count = streams_at(row, depth);
        unpack_apart(&outputs, count, row, apart, &widths.outputs, &mut results);
        row += 1;
    }
    Ok(results)
}

/// The numbers at the output ports of a design of this depth, row after row.
pub(crate) fn run_streams(
    alloc: Global,
    design: Design,
    widths: &Widths,
    rows: u32,
    cells: &[u128],
    depth: u32,
) -> Result<Vec<u128>, Memory>
    requires sound { IsSound design }
    requires widths { AreWidths design widths.now }
    requires rows { AreRowsOfCells (input_widths design) rows cells.now }
    requires depth { IsForStreams design rows depth }
    ensures run { IfOk result (λ outputs. IsRunOf design rows cells.now outputs.items) }
    ensures numbers { IfOk result (λ outputs. HasNumbers design) }
{
    let mut lanes = Lanes::from_design(alloc, design)?;
    Ok(run_lanes(alloc, &mut lanes, widths, rows, cells, depth)?)
}
