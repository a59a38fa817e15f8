//! The limits that each version of specifications sets to inputs and signals.
ghost use Rattle.std.specs.Prelude.{◌≡◌, ◌↔◌, IsTrue};
ghost use Rattle.opgen_ports.specs.Limits.{IsVersion, most_input, most_signal};

use opgen_num::{MAX_INPUT, MAX_WIDTH};

/// Whether a number is a version of specifications.
pub fn is_version(version: u32) -> bool
    ensures { IsTrue result ↔ IsVersion version }
{
    version == 1 || version == 2 || version == 3 || version == 4
}

/// The most bits that an input has in a version of specifications.
pub fn most_input(version: u32) -> u32
    ensures { result ≡ most_input version }
{
    if version == 1 { 32 } else { MAX_INPUT }
}

/// The most bits that a signal has in a version of specifications.
pub fn most_signal(version: u32) -> u32
    ensures { result ≡ most_signal version }
{
    if version == 1 { 64 } else { MAX_WIDTH }
}
