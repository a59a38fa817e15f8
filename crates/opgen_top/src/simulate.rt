//! The command `simulate`: from VHDL and vectors to the rows of the design's run.
ghost use Rattle.std.specs.Prelude.{◌≡◌, ◌≤◌, ◌<◌, IfOk, List, Some, length};
ghost use Rattle.opgen_num.specs.Words.{AreRowsOfCells};
ghost use Rattle.opgen_command.specs.declared.command.Command.TheVariants.{Simulate};
ghost use Rattle.opgen_design.specs.Run.{input_widths};
ghost use Rattle.opgen_design.specs.Sound.{IsSound};
ghost use Rattle.opgen_top.specs.Due.{most_simulated_bytes};
ghost use Rattle.opgen_top.specs.Prepared.{answer_of, reads_of, HasSimulated, IsListed, IsPrepared, OnAnswer};
ghost use Rattle.opgen_top.specs.Simulate.{IsSimulated};
ghost use Rattle.opgen_top.specs.Targets.{Device};

use crate::answer::{Answer, Refusal, with_file};
use crate::fetch::{MAX_SIMULATED_LEN, fetch};
use crate::line::Line;
use crate::read::{read_inputs, read_vhdl};
use crate::rows::{Rows, run_text};
use opgen_design::Design;
use opgen_io::Folder;
use opgen_num::Memory;
use std::alloc::Global;

/// Fetches VHDL and vectors, and answers with the rows of the run, to be stored under `out`.
pub(crate) fn simulate<F: Folder>(
    alloc: Global,
    vhdl: &str,
    vectors: &str,
    out: &str,
    folder: &mut F,
) -> Result<Answer, Refusal>
    ensures told_same { F.told folder.new ≡ F.told folder.old }
    ensures write_faults_same { F.write_faults folder.new ≡ F.write_faults folder.old }
    ensures prepared { (devices : List Device) → OnAnswer result (IsPrepared (Some (Simulate vhdl.now vectors.now out.now))
        devices (F.told folder.old)
        (reads_of F.read_faults F.lacks F.longs folder.old) (reads_of F.read_faults F.lacks F.longs folder.new)) }
{
    let text = fetch(alloc, vhdl, MAX_SIMULATED_LEN, folder)?;
    let rows = fetch(alloc, vectors, MAX_SIMULATED_LEN, folder)?;
    run_vhdl(alloc, &text, &rows, out)
}

// Reads VHDL and vectors, and answers with the rows of the run.
fn run_vhdl(alloc: Global, vhdl: &[u8], vectors: &[u8], out: &str) -> Result<Answer, Refusal>
    requires { length vhdl.now ≤ most_simulated_bytes }
    ensures answer { OnAnswer result (IsSimulated out.now vhdl.now vectors.now) }
    ensures listed { OnAnswer result IsListed }
{
    let design = read_vhdl(alloc, vhdl)?;
    let rows = read_inputs(alloc, &design, vectors)?;
    Ok(store_run(alloc, design, &rows, out)?)
}

// The answer that stores the rows of a design's run under `out`.
fn store_run(alloc: Global, design: Design, rows: &Rows, out: &str) -> Result<Answer, Memory>
    requires sound { IsSound design }
    requires some_port { 0 < length design.ports }
    requires columns { rows.now.inputs.columns ≡ length (input_widths design) }
    requires rows { AreRowsOfCells (input_widths design) rows.now.count rows.now.inputs.cells.items }
    ensures { IfOk result (λ a. HasSimulated out.now design rows.now.count rows.now.inputs.cells.items (answer_of a)) }
{
    let text = run_text(alloc, design, rows)?;
    let line = Line::Simulated { rows: rows.count };
    Ok(with_file(alloc, line, String::from_str(alloc, out)?, text)?)
}
