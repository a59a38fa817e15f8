//! The law of runs in lanes.
ghost use Rattle.opgen_lanes.specs.Runs.{StepsAreRuns};

/// The steps of new streams are, in each stream, a run of the design: a list of them has a word for each signal and port in each cycle.
pub fn lane_steps_are_runs()
    ensures { StepsAreRuns }
{}
