//! Laws of designs of nets: each is sound, can be written and run, and its paths end in time.
ghost use Rattle.opgen_schedule.specs.Laws.{PathsFit};
ghost use Rattle.opgen_pipe.specs.Laws.{DesignIsSound, DesignRuns, DesignIsShaped, DesignIsWritable};

use crate::runs::one_run;

/// In a schedule that fits, each path of cells within a cycle ends its setup before the end of the cycle.
pub fn paths_fit()
    ensures { PathsFit }
{}

/// The design of a valid net at a schedule that fits is sound, where the names of the net can stand in it.
pub fn design_is_sound()
    ensures { DesignIsSound }
{}

/// The design of a valid net at a schedule that fits has a run over all inputs of its ports' widths.
pub fn design_runs()
    ensures { DesignRuns }
{
    one_run();
}

/// The design of a valid net at any schedule has the subset's form.
pub fn design_is_shaped()
    ensures { DesignIsShaped }
{}

/// The design of a valid net at a schedule that fits can be written, where the names of the net can stand in it.
pub fn design_is_writable()
    ensures { DesignIsWritable }
{}
