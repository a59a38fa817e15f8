//! Laws of runs: leaving out the cycles in which the enable is 0, and picking any cycles if there are no registers.

ghost use Rattle.opgen_design.specs.Run.{EnabledCyclesAreRuns, AnyCyclesAreRuns};

/// Of a run of a design with an enable, the cycles in which the enable's word is 1, in their order, are a run of the design that is
/// the same but has no enable.
pub fn enabled_cycles_are_runs()
    ensures { EnabledCyclesAreRuns }
{}

/// Of a run of a design without registers, any cycles, in their order, are a run of it.
pub fn any_cycles_are_runs()
    ensures { AnyCyclesAreRuns }
{}
