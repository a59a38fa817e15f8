//! Counts in how many cycles of a filter's run the output is good.
ghost use Rattle.std.specs.Prelude.{◌≤◌, ◌<◌, ◌-◌, ◌^◌, All, length};
ghost use Rattle.opgen_operator.specs.Outputs.{inputs_of, outputs_of};
ghost use Rattle.opgen_ports.specs.Ports.{format_at};
ghost use Rattle.opgen_operator.specs.Valid.{IsValidSpec};
ghost use Rattle.opgen_workload.specs.Judged.{Counts, IsFilter, IsGoodCycle};

use opgen_operator::Spec;
use opgen_vec::is_good_row;

/// How many cycles of a filter are good, of those from the latency on, each judged by the inputs up
/// to the cycle so many before.
pub fn good_cycles(spec: &Spec, inputs: &[u128], outputs: &[u128], latency: u32) -> u32
    requires valid { IsValidSpec spec.now }
    requires filter { IsFilter spec.now.op }
    requires cycles { length outputs.now ≤ length inputs.now }
    requires few { length outputs.now < 2 ^ 32 }
    requires inputs { All (λ x. x < 2 ^ (format_at (inputs_of spec.now) 0).width) inputs.now }
    requires outputs { All (λ y. y < 2 ^ (format_at (outputs_of spec.now) 0).width) outputs.now }
    ensures { Counts (IsGoodCycle spec.now inputs.now outputs.now latency) (length outputs.now - latency) result }
{
    let latency = latency as usize;
    let mut good = 0;
    let mut cycle = 0;
    'cycles: while cycle + latency < outputs.len() {
        if is_good_row(spec, &inputs[..cycle + 1], &[outputs[cycle + latency]]) {
            good += 1;
        }
        cycle += 1;
    }
    good
}
