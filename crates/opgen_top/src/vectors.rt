//! The command `vectors`: from a specification to rows of drawn inputs and the outputs of its circuit.
ghost use Rattle.std.specs.Prelude.{◌≡◌, false, IfOk, Some, string_bytes};
ghost use Rattle.opgen_command.specs.declared.command.Command.TheVariants.{Vectors};
ghost use Rattle.opgen_design.specs.Sound.{IsSound};
ghost use Rattle.opgen_operator.specs.Valid.{IsValidSpec};
ghost use Rattle.opgen_vec.specs.Stimulus.{stimulus_cells};
ghost use Rattle.opgen_operator.specs.Serves.{ports_for};
ghost use Rattle.opgen_top.specs.Lines.{vectors_name};
ghost use Rattle.opgen_top.specs.Prepared.{reads_of, HasRows, IsListed, IsPrepared, OnAnswer};
ghost use Rattle.opgen_top.specs.Running.{IsRunText};
ghost use Rattle.opgen_top.specs.Specified.{IsAnswerToSpec, IsVectors, OnDevices, OnTable};
ghost use Rattle.opgen_top.specs.Targets.{devices_of};

use crate::answer::{Answer, Refusal, with_file};
use crate::circuit::make_circuit;
use crate::context::Context;
use crate::fetch::{MAX_SPEC_LEN, fetch};
use crate::line::Line;
use crate::read::read_specification;
use crate::rows::{Rows, run_text};
use opgen_design::Design;
use opgen_io::Folder;
use opgen_num::Memory;
use opgen_search::Gate;
use opgen_spec::Spec;
use opgen_vec::stimulus;
use std::alloc::{AllocError, Global};
use std::thread::Threads;

/// Fetches a specification, and answers with the rows of its circuit's run over drawn inputs.
pub(crate) fn make_vectors<R: Threads + Sync, F: Folder, G: Gate + Sync>(
    file: &str,
    seed: u32,
    cycles: u32,
    folder: &mut F,
    context: Context<'_, R, G>,
) -> Result<Answer, Refusal>
    ensures told_same { F.told folder.new ≡ F.told folder.old }
    ensures write_faults_same { F.write_faults folder.new ≡ F.write_faults folder.old }
    ensures prepared { OnAnswer result (IsPrepared (Some (Vectors file.now seed cycles))
        (devices_of target_name delays adjustable context.entry.targets.items) (F.told folder.old)
        (reads_of F.read_faults F.lacks F.longs folder.old) (reads_of F.read_faults F.lacks F.longs folder.new)) }
{
    let document = fetch(context.alloc, file, MAX_SPEC_LEN, folder)?;
    run_document(&document, seed, cycles, context)
}

// Reads a specification, makes its circuit, and answers with the rows of its run over drawn inputs.
fn run_document<R: Threads + Sync, G: Gate + Sync>(
    document: &[u8],
    seed: u32,
    cycles: u32,
    context: Context<'_, R, G>,
) -> Result<Answer, Refusal>
    ensures answer { OnAnswer result (IsAnswerToSpec document.now
        (devices_of target_name delays adjustable context.entry.targets.items) (IsVectors seed cycles)) }
    ensures listed { OnAnswer result IsListed }
{
    let spec = read_specification(context.alloc, document)?;
    run_circuit(&spec, seed, cycles, context)
}

// Makes the circuit of a specification, and answers with the rows of its run over drawn inputs.
fn run_circuit<R: Threads + Sync, G: Gate + Sync>(
    spec: &Spec,
    seed: u32,
    cycles: u32,
    context: Context<'_, R, G>,
) -> Result<Answer, Refusal>
    requires { IsValidSpec spec.now }
    ensures answer { OnAnswer result (λ a. OnDevices (devices_of target_name delays adjustable context.entry.targets.items) spec.now a
        (λ table. OnTable spec.now table a (IsVectors seed cycles spec.now table a))) }
    ensures listed { OnAnswer result IsListed }
{
    let alloc = context.alloc;
    let circuit = make_circuit(spec, false, 1, context)?;
    run_stimulus(alloc, spec, circuit.planned.design, seed, cycles)
}

// The answer that stores the rows of a design over the stimulus of its specification.
fn run_stimulus(
    alloc: Global,
    spec: &Spec,
    design: Design,
    seed: u32,
    cycles: u32,
) -> Result<Answer, Refusal>
    requires valid { IsValidSpec spec.now }
    requires sound { IsSound design }
    requires ports { design.ports ≡ ports_for spec.now false }
    ensures { OnAnswer result (HasRows spec.now design seed cycles) }
{
    let text = stimulus_text(alloc, spec, design, seed, cycles)?;
    let line = Line::WroteVectors {
        name: spec.name.copy(alloc)?,
        cycles,
    };
    let name = vectors_name(alloc, spec.name.as_str())?;
    Ok(with_file(alloc, line, name, text)?)
}

// The text of the run of a design over the stimulus of its specification.
fn stimulus_text(
    alloc: Global,
    spec: &Spec,
    design: Design,
    seed: u32,
    cycles: u32,
) -> Result<Vec<u8>, Memory>
    requires valid { IsValidSpec spec.now }
    requires sound { IsSound design }
    requires ports { design.ports ≡ ports_for spec.now false }
    ensures { IfOk result (λ text. IsRunText design cycles (stimulus_cells spec.now seed cycles) text.items) }
{
    let rows = Rows {
        count: cycles,
        inputs: stimulus(alloc, spec, seed as u64, cycles)?,
    };
    run_text(alloc, design, &rows)
}

fn vectors_name(alloc: Global, name: &str) -> Result<String, AllocError>
    ensures { IfOk result (λ file. string_bytes file ≡ vectors_name name.now) }
{
    format!(in alloc; "{name}.vec")
}
