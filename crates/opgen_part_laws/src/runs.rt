//! Laws of runs: a design has one run, its steps are runs, outputs look no further back than the depth, those of an aligned design show
//! one row, and rows have one verdict.
ghost use Rattle.opgen_runs.specs.OneRun.{HasOneRun};
ghost use Rattle.opgen_design.specs.Depth.{OutputsDependOnDepth};
ghost use Rattle.opgen_sim.specs.Runs.{StepsAreRuns};
ghost use Rattle.opgen_check.specs.Verdict.{HasOneVerdict};
ghost use Rattle.opgen_part_laws.specs.Aligned.{OutputsShowOneRow, PlacesAlign, SmallDesignsAlign};

/// A sound design has exactly one run over each list of inputs: for each cycle a word for each input port, of its width.
pub fn one_run()
    ensures { HasOneRun }
{}

/// In a sound design cycles with the same inputs, in them and in as many cycles before as its outputs look back, have the same
/// outputs: in one run or in two, wherever they are, and whatever words the registers hold at the start.
pub fn outputs_depend_on_depth()
    ensures { OutputsDependOnDepth }
{}

/// In a sound design without an enable, if no way to an output passes more registers than some number, and each way from an input to
/// an output passes exactly that number, the outputs are said by the inputs of the one cycle so many before: in one run or in two,
/// wherever the cycles are, and whatever words the registers hold at the start.
pub fn outputs_show_one_row()
    ensures { OutputsShowOneRow }
{}

/// A design is aligned if there are places by which it is seen to be.
pub fn places_align()
    ensures { PlacesAlign }
{}

/// A design that shows a register of its input is aligned; one that shows whether the input and its register differ is not.
pub fn small_designs_align()
    ensures { SmallDesignsAlign }
{}

/// The steps of a new simulator are a run of its design: a list of them has a word for each signal and port in each cycle.
pub fn steps_are_runs()
    ensures { StepsAreRuns }
{}

/// A sound design's run over rows has at most one verdict.
pub fn one_verdict()
    ensures { HasOneVerdict }
{}
