//! The law on the net for a table of delays and a period.
ghost use Rattle.opgen_timing.specs.Nets.{CutNetsAreSame};

/// The net for a table of delays and a period is valid, and the same circuit as the net of which it is made.
pub fn cut_nets_are_same()
    ensures { CutNetsAreSame }
{}
