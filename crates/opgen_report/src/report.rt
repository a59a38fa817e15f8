//! Writes the report of an operator: its request, ports, latency, slack, cells and adder graph.
ghost use Rattle.std.specs.Prelude.{◌≡◌, IfOk};
ghost use Rattle.opgen_operator.specs.Valid.{IsValidSpec};
ghost use Rattle.opgen_report.specs.Report.{report};

use crate::Planned;
use crate::parts::{put_cells, put_graph, put_ports, put_request, put_time};
use opgen_num::Memory;
use opgen_operator::Spec;
use std::alloc::Global;

/// The report of a specification whose design was planned, and whose adder graph has the members `set`.
#[tactic(auto, unfolding(crate::specs::Report::report))]
pub fn report_text(
    alloc: Global,
    spec: &Spec,
    planned: &Planned,
    set: &[u32],
) -> Result<Vec<u8>, Memory>
    requires { IsValidSpec spec.now }
    ensures { IfOk result (λ text. text.items ≡ report spec.now planned.now set.now) }
{
    let inputs = spec.inputs(alloc)?;
    let outputs = spec.outputs(alloc)?;
    let mut out = String::new(alloc);
    put_request(&mut out, spec)?;
    put_time(&mut out, planned.latency, planned.slack)?;
    put_ports(&mut out, "input", &inputs)?;
    put_ports(&mut out, "output", &outputs)?;
    put_cells(&mut out, &planned.cells)?;
    writeln!(out, "signals {}", planned.design.signals.len())?;
    put_graph(&mut out, &spec.op, set)?;
    Ok(out.into_bytes())
}
