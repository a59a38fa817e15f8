//! The laws of saturation and of wrapping: they keep good outputs good.
ghost use Rattle.opgen_saturate.specs.Law.{SaturationKeepsGood, WrappingKeepsGood};

/// A number that is good for an exact value, as a fraction, is good for that value brought into the range of a format, once it is
/// brought there itself, in each mode.
pub fn saturation_keeps_good()
    ensures { SaturationKeepsGood }
{}

/// A number of the output's own format that is good for an exact value, in a mode, makes a good output that wraps, once it is taken
/// modulo two to the power of the width of another format.
pub fn wrapping_keeps_good()
    ensures { WrappingKeepsGood }
{}
