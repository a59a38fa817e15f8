//! The laws on nets and circuits that `run` rests on.
ghost use Rattle.opgen_top.specs.Circuit.{CircuitsRecover, CircuitsServe, NetsFit};

use opgen_design::laws::{any_cycles_are_runs, enabled_cycles_are_runs};
use opgen_pipe::run_follows_flow;

/// The net of a valid specification fits it.
pub fn nets_fit()
    ensures { NetsFit }
{}

/// Each circuit of a valid specification serves it, at its latency.
pub fn circuits_serve()
    ensures { CircuitsServe }
{
    run_follows_flow();
}

/// Whatever words the registers of a circuit hold, its outputs are good from the latency and the operator's memory on.
pub fn circuits_recover()
    ensures { CircuitsRecover }
{
    circuits_serve();
    enabled_cycles_are_runs();
    any_cycles_are_runs();
}
