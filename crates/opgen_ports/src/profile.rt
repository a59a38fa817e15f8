//! What is said of an operator by numbers and marks alone, which each kind gives.
ghost use Rattle.std.specs.Prelude.{◌≡◌};
ghost use Rattle.opgen_ports.specs.Profile.{most_shift_in};

use opgen_num::Mode;

/// What is said of an operator by numbers and marks alone.
#[derive(Clone, Copy, Debug, PartialEq, Eq)]
pub struct Profile {
    /// The least shift.
    pub least_shift: i32,
    /// The greatest shift in version 1.
    pub first_most_shift: i32,
    /// The greatest shift in later versions.
    pub most_shift: i32,
    /// The place of the input port that must not be 0, if there is one.
    pub divisor: Option<usize>,
    /// Whether there is one output of one exact value.
    pub has_value: bool,
    /// Whether the net is made of an adder graph.
    pub has_graph: bool,
    /// The operator's own mode of outputs, if it has one.
    pub own_mark: Option<Mode>,
}

impl Profile {
    /// The greatest shift in a version of specifications.
    pub fn most_shift_in(&self, version: u32) -> i32
        ensures { result ≡ most_shift_in version self.now }
    {
        if version == 1 {
            self.first_most_shift
        } else {
            self.most_shift
        }
    }
}
