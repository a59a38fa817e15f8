//! Checks a specification whose fields are in range against the limits that concern several fields: shift, width and exactness.
ghost use Rattle.std.specs.Prelude.{◌≡◌, None};
ghost use Rattle.opgen_ports.specs.Limits.{most_input};
ghost use Rattle.opgen_operator.specs.Operator.{HasInputsWithin, IsOperator};
ghost use Rattle.opgen_spec.specs.Faults.{not_exact, coarse, too_wide, limit_fault};

use crate::fault::SpecFault;
use opgen_operator::{Spec, most_signal};

fn not_exact(spec: &Spec) -> Option<SpecFault>
    requires { IsOperator spec.now.op }
    ensures { result ≡ not_exact spec.now }
{
    if !spec.exact {
        return None;
    }
    let index = spec.op.inexact()?;
    Some(SpecFault::NotExact { index })
}

fn coarse(spec: &Spec) -> Option<SpecFault>
    requires { IsOperator spec.now.op }
    ensures { result ≡ coarse spec.now }
{
    let shift = spec.op.shift();
    if spec.op.least_shift() <= shift && shift <= spec.op.most_shift(spec.version) {
        None
    } else {
        Some(SpecFault::Coarse { shift })
    }
}

fn too_wide(spec: &Spec) -> Option<SpecFault>
    requires op { IsOperator spec.now.op }
    requires inputs { HasInputsWithin (most_input spec.now.version) spec.now.op }
    requires fine { coarse spec.now ≡ None }
    ensures { result ≡ too_wide spec.now }
{
    let need = spec.op.need()?;
    if need > most_signal(spec.version) {
        Some(SpecFault::TooWide { need })
    } else {
        None
    }
}

/// The first fault of a specification whose fields are in range.
pub(crate) fn limit_fault(spec: &Spec) -> Option<SpecFault>
    requires op { IsOperator spec.now.op }
    requires inputs { HasInputsWithin (most_input spec.now.version) spec.now.op }
    ensures { result ≡ limit_fault spec.now }
{
    if let Some(fault) = not_exact(spec) {
        return Some(fault);
    }
    if let Some(fault) = coarse(spec) {
        return Some(fault);
    }
    too_wide(spec)
}
