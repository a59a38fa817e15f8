//! Laws of the design of every net at every schedule: it is sound and can be written, its runs follow the net, and its timing.
ghost use Rattle.opgen_pipe.specs.Laws.{RunFollowsFlow};

use opgen_design::laws::{any_cycles_are_runs, enabled_cycles_are_runs};

/// In each cycle of each run each signal has the word of its node as many cycles before as it stands later, and each output the
/// word of its slice the latency before.
pub fn run_follows_flow()
    ensures { RunFollowsFlow }
{
    enabled_cycles_are_runs();
    any_cycles_are_runs();
}
