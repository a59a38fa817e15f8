//! The command `workload`: plans and runs a filter that is made from a number.
ghost use Rattle.std.specs.Prelude.{◌≡◌, ◌≤◌, false};
ghost use Rattle.opgen_design.specs.Sound.{IsSound};
ghost use Rattle.opgen_operator.specs.Valid.{IsValidSpec};
ghost use Rattle.opgen_workload.specs.Filter.{workload_spec};
ghost use Rattle.opgen_operator.specs.Serves.{ports_for};
ghost use Rattle.opgen_top.specs.Prepared.{HasWorked, IsListed, OnAnswer};
ghost use Rattle.opgen_top.specs.Targets.{devices_of};
ghost use Rattle.opgen_top.specs.Workload.{IsAnswerToWorkload};

use crate::answer::{Answer, Refusal, without_file};
use crate::circuit::make_circuit;
use crate::context::Context;
use crate::line::Line;
use opgen_pipe::Planned;
use opgen_search::Gate;
use opgen_sim::run_rows;
use opgen_spec::Spec;
use opgen_vec::stimulus;
use opgen_workload::{good_cycles, workload_spec};
use std::alloc::Global;
use std::thread::Threads;

/// How many cycles the filter runs.
const CYCLES: u32 = 64;

/// Makes the filter of a number and its circuit, and answers with the line on its run.
pub(crate) fn run_workload<R: Threads + Sync, G: Gate + Sync>(
    n: u32,
    context: Context<'_, R, G>,
) -> Result<Answer, Refusal>
    requires { (1 ≤ n) × (n ≤ 32) }
    ensures answer { OnAnswer result (IsAnswerToWorkload n (devices_of target_name delays adjustable context.entry.targets.items)) }
    ensures listed { OnAnswer result IsListed }
{
    let spec = workload_spec(context.alloc, n)?;
    make_filter(n, &spec, context)
}

// Makes the circuit of the filter, and answers with the line on its run.
fn make_filter<R: Threads + Sync, G: Gate + Sync>(
    n: u32,
    spec: &Spec,
    context: Context<'_, R, G>,
) -> Result<Answer, Refusal>
    requires filter { spec.now ≡ workload_spec n }
    requires valid { IsValidSpec spec.now }
    ensures answer { OnAnswer result (IsAnswerToWorkload n (devices_of target_name delays adjustable context.entry.targets.items)) }
    ensures listed { OnAnswer result IsListed }
{
    let alloc = context.alloc;
    let circuit = make_circuit(spec, false, 1, context)?;
    run_filter(alloc, n, spec, circuit.planned)
}

// How many cycles of the filter's run over its stimulus are good, in a line with its size.
fn run_filter(alloc: Global, n: u32, spec: &Spec, planned: Planned) -> Result<Answer, Refusal>
    requires filter { spec.now ≡ workload_spec n }
    requires valid { IsValidSpec spec.now }
    requires sound { IsSound planned.design }
    requires ports { planned.design.ports ≡ ports_for spec.now false }
    ensures { OnAnswer result (HasWorked n planned) }
{
    let inputs = stimulus(alloc, spec, n as u64, CYCLES)?;
    let signals = planned.design.signals.len();
    let outputs = run_rows(alloc, planned.design, CYCLES, &inputs.cells)?;
    let good = good_cycles(spec, &inputs.cells, &outputs, planned.latency);
    let line = Line::Worked {
        n,
        signals,
        latency: planned.latency,
        good,
    };
    Ok(without_file(alloc, line))
}
