//! The step behind the net of an operator whose output has a chosen width.
ghost use Rattle.std.specs.Prelude.{◌≡◌, OnOk};
ghost use Rattle.opgen_net.specs.Valid.{IsValid};
ghost use Rattle.opgen_operator.specs.Fits.{FitsInEachMode, FitsSpec};
ghost use Rattle.opgen_operator.specs.Valid.{IsValidSpec};
ghost use Rattle.opgen_saturate.specs.Chosen.{cut_net};

use crate::output::convert_output;
use opgen_net::Net;
use opgen_num::Memory;
use opgen_operator::Spec;
use std::alloc::Global;

/// Makes the net of an operator that of a specification: if this chooses a width for the output, the
/// output is brought into its range, or wraps. If memory runs out, the net is valid.
pub fn cut_output(alloc: Global, net: &mut Net, spec: &Spec) -> Result<(), Memory>
    requires valid { IsValidSpec spec.now }
    requires fits { FitsInEachMode spec.now.op net.old }
    ensures valid { IsValid net.new }
    ensures ok { OnOk result (net.new ≡ cut_net spec.now net.old) }
    ensures fits { OnOk result (FitsSpec spec.now net.new) }
{
    match spec.cut() {
        Some(cut) => convert_output(alloc, net, spec.overflow, cut.from, cut.to),
        None => Ok(()),
    }
}
