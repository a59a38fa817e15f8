//! A row of outputs, judged by the definition of good outputs.
ghost use Rattle.std.specs.Prelude.{◌↔◌, IsTrue};
ghost use Rattle.opgen_operator.specs.Outputs.{inputs_of, outputs_of};
ghost use Rattle.opgen_ports.specs.Ports.{IsCycle, IsHistory};
ghost use Rattle.opgen_operator.specs.Valid.{IsValidSpec};
ghost use Rattle.opgen_vec.specs.GoodRow.{IsGoodRow};

use opgen_operator::Spec;

/// Whether a row of outputs is good for the rows of inputs of the cycles so far, or the last of these is out of range.
pub fn is_good_row(spec: &Spec, inputs: &[u128], outputs: &[u128]) -> bool
    requires valid { IsValidSpec spec.now }
    requires inputs { IsHistory (inputs_of spec.now) inputs.now }
    requires outputs { IsCycle (outputs_of spec.now) outputs.now }
    ensures { IsTrue result ↔ IsGoodRow spec.now inputs.now outputs.now }
{
    spec.good(inputs, outputs)
}
