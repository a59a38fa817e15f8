//! The command `check`: judges a design by a specification, over rows of its inputs.
ghost use Rattle.std.specs.Prelude.{◌≡◌, ◌≤◌, ◌<◌, ◌^◌, [], List, Some, length};
ghost use Rattle.opgen_num.specs.Words.{AreRowsOfCells};
ghost use Rattle.opgen_command.specs.declared.command.Command.TheVariants.{Check};
ghost use Rattle.opgen_design.specs.Run.{input_widths};
ghost use Rattle.opgen_design.specs.Sound.{IsSound};
ghost use Rattle.opgen_operator.specs.Valid.{IsValidSpec};
ghost use Rattle.opgen_top.specs.Answer.{success};
ghost use Rattle.opgen_top.specs.Check.{IsAnswerToCheck, IsAnswerToVhdl};
ghost use Rattle.opgen_top.specs.Due.{most_simulated_bytes};
ghost use Rattle.opgen_top.specs.Prepared.{reads_of, verdict_answer, IsAnswerToDesign, IsListed, IsPrepared, OnAnswer};
ghost use Rattle.opgen_top.specs.Targets.{Device};

use crate::answer::{Answer, Refusal, without_file};
use crate::fetch::{MAX_SIMULATED_LEN, MAX_SPEC_LEN, fetch};
use crate::line::Line;
use crate::read::{read_inputs, read_specification, read_vhdl};
use crate::rows::Rows;
use opgen_check::{CheckFault, Checked, check_rows};
use opgen_design::Design;
use opgen_io::Folder;
use opgen_spec::Spec;
use std::alloc::Global;

/// Fetches a specification, VHDL and vectors, and answers with the verdict on the rows, for a latency.
pub(crate) fn check<F: Folder>(
    alloc: Global,
    spec: &str,
    vhdl: &str,
    vectors: &str,
    latency: u32,
    folder: &mut F,
) -> Result<Answer, Refusal>
    ensures told_same { F.told folder.new ≡ F.told folder.old }
    ensures write_faults_same { F.write_faults folder.new ≡ F.write_faults folder.old }
    ensures prepared { (devices : List Device) → OnAnswer result (IsPrepared (Some (Check spec.now vhdl.now vectors.now latency))
        devices (F.told folder.old)
        (reads_of F.read_faults F.lacks F.longs folder.old) (reads_of F.read_faults F.lacks F.longs folder.new)) }
{
    let document = fetch(alloc, spec, MAX_SPEC_LEN, folder)?;
    let text = fetch(alloc, vhdl, MAX_SIMULATED_LEN, folder)?;
    let rows = fetch(alloc, vectors, MAX_SIMULATED_LEN, folder)?;
    judge_document(alloc, &document, &text, &rows, latency)
}

// Reads a specification, VHDL and vectors, and answers with the verdict.
fn judge_document(
    alloc: Global,
    document: &[u8],
    vhdl: &[u8],
    vectors: &[u8],
    latency: u32,
) -> Result<Answer, Refusal>
    requires { length vhdl.now ≤ most_simulated_bytes }
    ensures answer { OnAnswer result (IsAnswerToCheck latency document.now vhdl.now vectors.now) }
    ensures listed { OnAnswer result IsListed }
{
    let spec = read_specification(alloc, document)?;
    judge_vhdl(alloc, &spec, vhdl, vectors, latency)
}

// Reads VHDL and vectors, and answers with the verdict by a specification.
fn judge_vhdl(
    alloc: Global,
    spec: &Spec,
    vhdl: &[u8],
    vectors: &[u8],
    latency: u32,
) -> Result<Answer, Refusal>
    requires valid { IsValidSpec spec.now }
    requires short { length vhdl.now ≤ most_simulated_bytes }
    ensures answer { OnAnswer result (IsAnswerToVhdl spec.now latency vhdl.now vectors.now) }
    ensures listed { OnAnswer result IsListed }
{
    let design = read_vhdl(alloc, vhdl)?;
    let rows = read_inputs(alloc, &design, vectors)?;
    judge_rows(alloc, spec, design, &rows, latency)
}

// Runs a design over rows of its inputs, and answers with the verdict.
fn judge_rows(
    alloc: Global,
    spec: &Spec,
    design: Design,
    rows: &Rows,
    latency: u32,
) -> Result<Answer, Refusal>
    requires valid { IsValidSpec spec.now }
    requires sound { IsSound design }
    requires columns { rows.now.inputs.columns ≡ length (input_widths design) }
    requires rows { AreRowsOfCells (input_widths design) rows.now.count rows.now.inputs.cells.items }
    requires few { rows.now.count < 2 ^ 32 }
    ensures answer { OnAnswer result (IsAnswerToDesign spec.now design latency rows.now.count rows.now.inputs.cells.items) }
    ensures listed { OnAnswer result IsListed }
{
    match check_rows(alloc, spec, design, &rows.inputs, latency) {
        Ok(checked) => Ok(without_file(alloc, verdict_line(checked))),
        Err(CheckFault::Ports) => Err(Refusal::Line(Line::Ports)),
        Err(CheckFault::Memory) => Err(Refusal::Memory),
    }
}

fn verdict_line(checked: Checked) -> Line
    ensures { success result [] ≡ verdict_answer checked }
{
    match checked {
        Checked::Good { rows } => Line::Good { rows },
        Checked::Bad { row } => Line::BadRow { row },
    }
}
