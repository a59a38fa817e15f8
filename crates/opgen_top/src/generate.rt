//! The command `generate`: from a specification to the VHDL of its circuit and a report.
ghost use Rattle.std.specs.Prelude.{◌≡◌, ◌≤◌, IfOk, Some, string_bytes};
ghost use Rattle.opgen_command.specs.declared.command.Command.TheVariants.{Generate};
ghost use Rattle.opgen_operator.specs.Valid.{IsValidSpec};
ghost use Rattle.opgen_top.specs.Lines.{report_name, vhdl_name};
ghost use Rattle.opgen_top.specs.Prepared.{reads_of, IsListed, IsPrepared, OnAnswer};
ghost use Rattle.opgen_top.specs.Specified.{wrote, IsAnswerToSpec, IsGenerated, OnDevices, OnTable};
ghost use Rattle.opgen_top.specs.Targets.{devices_of};

use crate::answer::{Answer, NewFile, Refusal, with_files};
use crate::circuit::{Circuit, make_circuit};
use crate::context::Context;
use crate::fetch::{MAX_SPEC_LEN, fetch};
use crate::line::Line;
use crate::read::read_specification;
use opgen_io::Folder;
use opgen_report::report_text;
use opgen_search::Gate;
use opgen_spec::Spec;
use opgen_write::text;
use std::alloc::{AllocError, Global};
use std::thread::Threads;

/// Fetches a specification, and answers with the VHDL of its circuit and the report.
pub(crate) fn generate<R: Threads + Sync, F: Folder, G: Gate + Sync>(
    file: &str,
    workers: u32,
    enable: bool,
    folder: &mut F,
    context: Context<'_, R, G>,
) -> Result<Answer, Refusal>
    requires { (1 ≤ workers) × (workers ≤ 32) }
    ensures told_same { F.told folder.new ≡ F.told folder.old }
    ensures write_faults_same { F.write_faults folder.new ≡ F.write_faults folder.old }
    ensures prepared { OnAnswer result (IsPrepared (Some (Generate file.now workers enable))
        (devices_of target_name delays adjustable context.entry.targets.items) (F.told folder.old)
        (reads_of F.read_faults F.lacks F.longs folder.old) (reads_of F.read_faults F.lacks F.longs folder.new)) }
{
    let document = fetch(context.alloc, file, MAX_SPEC_LEN, folder)?;
    generate_document(&document, workers, enable, context)
}

// Reads a specification, makes its circuit, and answers with the VHDL and the report.
fn generate_document<R: Threads + Sync, G: Gate + Sync>(
    document: &[u8],
    workers: u32,
    enable: bool,
    context: Context<'_, R, G>,
) -> Result<Answer, Refusal>
    requires { (1 ≤ workers) × (workers ≤ 32) }
    ensures answer { OnAnswer result (IsAnswerToSpec document.now
        (devices_of target_name delays adjustable context.entry.targets.items) (IsGenerated enable)) }
    ensures listed { OnAnswer result IsListed }
{
    let spec = read_specification(context.alloc, document)?;
    generate_circuit(&spec, workers, enable, context)
}

// Makes the circuit of a specification, and answers with the VHDL and the report.
fn generate_circuit<R: Threads + Sync, G: Gate + Sync>(
    spec: &Spec,
    workers: u32,
    enable: bool,
    context: Context<'_, R, G>,
) -> Result<Answer, Refusal>
    requires valid { IsValidSpec spec.now }
    requires workers { (1 ≤ workers) × (workers ≤ 32) }
    ensures answer { OnAnswer result (λ a. OnDevices (devices_of target_name delays adjustable context.entry.targets.items) spec.now a
        (λ table. OnTable spec.now table a (IsGenerated enable spec.now table a))) }
    ensures listed { OnAnswer result IsListed }
{
    let alloc = context.alloc;
    let circuit = make_circuit(spec, enable, workers, context)?;
    make_files(alloc, spec, &circuit)
}

// The answer that stores the text of a circuit and the report on it.
fn make_files(alloc: Global, spec: &Spec, circuit: &Circuit) -> Result<Answer, Refusal>
    requires { IsValidSpec spec.now }
    ensures { OnAnswer result (λ a. a ≡ wrote spec.now circuit.now.planned circuit.now.adders.items) }
{
    let name = spec.name.as_str();
    let planned = &circuit.planned;
    let vhdl = NewFile {
        name: vhdl_name(alloc, name)?,
        bytes: text(alloc, &planned.design)?,
    };
    let report = NewFile {
        name: report_name(alloc, name)?,
        bytes: report_text(alloc, spec, planned, &circuit.adders)?,
    };
    let line = Line::Wrote {
        name: spec.name.copy(alloc)?,
        latency: planned.latency,
    };
    Ok(with_files(alloc, line, vhdl, report)?)
}

fn vhdl_name(alloc: Global, name: &str) -> Result<String, AllocError>
    ensures { IfOk result (λ file. string_bytes file ≡ vhdl_name name.now) }
{
    format!(in alloc; "{name}.vhd")
}

fn report_name(alloc: Global, name: &str) -> Result<String, AllocError>
    ensures { IfOk result (λ file. string_bytes file ≡ report_name name.now) }
{
    format!(in alloc; "{name}.rpt")
}
