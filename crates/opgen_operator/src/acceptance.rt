//! Tests whether a version of specifications accepts an operator, and whether outputs in a mode may be asked of it.
ghost use Rattle.std.specs.Prelude.{ℕ, ◌≡◌, ◌≤◌, ◌↔◌, ◌≤ℤ◌, Some, None, IsTrue};
ghost use Rattle.opgen_operator.specs.Operator.{shift, least_shift, most_shift, need, inexact, HasInputsWithin, IsOperator, IsAcceptedBy, IsInVersion};
ghost use Rattle.opgen_operator.specs.Valid.{AgreesWith, IsModeOf};
ghost use Rattle.opgen_ports.specs.Limits.{most_input, most_signal};

use crate::operator::Operator;
use opgen_num::Mode;
use opgen_ports::modes::{is_exact, is_exact_or_faithful, is_marked};
use opgen_ports::{most_input, most_signal};

impl Operator {
    // Whether a version of specifications accepts the operator, its fields and its widest signal.
    fn is_accepted_in(&self, version: u32) -> bool
        ensures { IsTrue result ↔ IsAcceptedBy version self.now }
    {
        self.is_ranged()
            && self.has_inputs_within(most_input(version))
            && self.is_fine(version)
            && self.is_narrow(version)
            && self.is_whole(is_marked(self.own_mark()))
    }

    /// Whether a version of specifications has the operator and accepts it.
    pub(crate) fn is_of(&self, version: u32) -> bool
        ensures { IsTrue result ↔ (IsAcceptedBy version self.now × IsInVersion version self.now) }
    {
        self.is_accepted_in(version) && self.is_in(version)
    }

    // Whether the exact values are whole, if exact outputs are asked for.
    fn is_whole(&self, exact: bool) -> bool
        requires { IsOperator self.now }
        ensures { IsTrue result ↔ (IsTrue exact → inexact self.now ≡ None) }
    {
        !exact || self.inexact().is_none()
    }

    /// Whether outputs in the mode may be asked of the operator.
    pub(crate) fn has_mode(&self, mode: Mode) -> bool
        requires { IsOperator self.now }
        ensures { IsTrue result ↔ IsModeOf mode self.now }
    {
        is_exact_or_faithful(mode) && agrees(mode, self.own_mark()) && self.is_whole(is_exact(mode))
    }

    // Whether the shift is within the limits of the kind.
    fn is_fine(&self, version: u32) -> bool
        requires { IsOperator self.now }
        ensures { IsTrue result ↔
            ((least_shift self.now ≤ℤ shift self.now) × (shift self.now ≤ℤ most_shift version self.now)) }
    {
        let shift = self.shift();
        self.least_shift() <= shift && shift <= self.most_shift(version)
    }

    // Whether the widest signal is no wider than a signal may be.
    fn is_narrow(&self, version: u32) -> bool
        requires op { IsOperator self.now }
        requires inputs { HasInputsWithin (most_input version) self.now }
        requires low { least_shift self.now ≤ℤ shift self.now }
        requires high { shift self.now ≤ℤ most_shift version self.now }
        ensures { IsTrue result ↔ ((bits : ℕ) → need self.now ≡ Some bits → bits ≤ most_signal version) }
    {
        match self.need() {
            Some(bits) => bits <= most_signal(version),
            None => true,
        }
    }
}

// Whether the operator's own mode, if it has one, is that of the outputs.
fn agrees(mode: Mode, mark: Option<Mode>) -> bool
    ensures { IsTrue result ↔ AgreesWith mode mark }
{
    match mark {
        Some(mark) => mark == mode,
        None => true,
    }
}
