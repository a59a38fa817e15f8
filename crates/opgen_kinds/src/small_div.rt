//! Quotients of an unsigned input by a small constant: what holds of them and of their remainders.
ghost use Rattle.std.specs.Prelude.{◌≡◌, ◌≤◌, IfOk, ◌↔◌, IsTrue};
ghost use Rattle.opgen_ports.specs.Modes.{mode_of_exact};
ghost use Rattle.opgen_ports.specs.Meaning.{IsCycleJudged};
ghost use Rattle.opgen_ports.specs.Profile.{IsProfileOf};
ghost use Rattle.opgen_kinds.specs.SmallDiv.{small_quotient_format, small_rest_format, IsSmallDiv, IsGoodSmallQuotient, small_ports, small_meaning, small_acceptance, IsAcceptedSmallDiv};
ghost use Rattle.opgen_ports.specs.Ports.{output_numbers, IsHistory, IsCycle, one_input};
ghost use Rattle.opgen_ports.specs.Spans.{IsOf};

use opgen_num::{Format, MAX_DIVISOR, Mode, bit_length, good_linear, is_quotient};
use opgen_ports::Profile;
use opgen_ports::history::{output, recent};
use opgen_ports::modes::mode_of_exact;
use opgen_ports::ports::{PortFormat, one, unsigned, with_rest};
use opgen_ports::ranges::{are_near, is_input};
use std::alloc::{AllocError, Global};

/// An unsigned input, and the constant by which it is divided.
#[derive(Clone, Copy, Debug, PartialEq, Eq)]
pub struct SmallDiv {
    pub input: Format,
    pub divisor: u32,
    pub exact: bool,
}

impl SmallDiv {
    /// The format of the quotient.
    pub fn quotient(&self) -> Format
        ensures { result ≡ small_quotient_format self.now }
    {
        unsigned(self.input.width, self.input.lsb)
    }

    /// The format of the remainder, which has the bits of the greatest one.
    pub fn remainder(&self) -> Format
        requires { IsSmallDiv self.now }
        ensures value { result ≡ small_rest_format self.now }
        ensures some { 1 ≤ result.width }
        ensures few { result.width ≤ 5 }
    {
        unsigned(bit_length((self.divisor - 1).into()), self.input.lsb)
    }

    /// Whether the fields are within the ranges of their keys.
    pub fn is_ranged(&self) -> bool
        ensures { IsTrue result ↔ IsSmallDiv self.now }
    {
        is_input(self.input)
            && !self.input.signed
            && 2 <= self.divisor
            && self.divisor <= MAX_DIVISOR
    }

    /// Whether a version of specifications has the operator with these fields.
    pub fn is_in(&self, version: u32) -> bool
        ensures { IsTrue result ↔ (small_acceptance self.now).IsIn version }
    {
        version != 1 && are_near(version, &[self.input.lsb])
    }

    /// What is said of the operator by numbers and marks alone.
    pub fn profile(&self) -> Profile
        ensures { IsProfileOf (small_meaning self.now) (small_acceptance self.now) result }
    {
        Profile {
            least_shift: 0,
            first_most_shift: 0,
            most_shift: 0,
            divisor: None,
            has_value: false,
            has_graph: false,
            own_mark: Some(mode_of_exact(self.exact)),
        }
    }

    /// The input ports, in order.
    pub fn inputs(&self, alloc: Global) -> Result<Vec<PortFormat>, AllocError>
        ensures { IfOk result (λ ports. ports.items ≡ one_input self.now.input) }
    {
        one(alloc, "x", self.input)
    }

    /// The output ports, in order.
    pub fn outputs(&self, alloc: Global) -> Result<Vec<PortFormat>, AllocError>
        requires { IsAcceptedSmallDiv self.now }
        ensures { IfOk result (λ ports. ports.items ≡ small_ports self.now.exact self.now) }
    {
        with_rest(alloc, self.exact, "q", self.quotient(), self.remainder())
    }

    /// Whether the outputs of the last cycle are good, or its inputs out of range.
    pub fn judge(&self, history: &[u128], outputs: &[u128]) -> bool
        requires accepted { IsAcceptedSmallDiv self.now }
        requires history { IsHistory (one_input self.now.input) history.now }
        requires outputs { IsCycle (small_ports self.now.exact self.now) outputs.now }
        ensures { IsCycleJudged (small_meaning self.now) (mode_of_exact self.now.exact) history.now outputs.now result }
    {
        let x = recent(self.input, history, 0);
        small_quotient_is_good(self.exact, self, x, outputs)
    }
}

fn small_quotient_is_good(exact: bool, small: &SmallDiv, x: i128, outputs: &[u128]) -> bool
    requires small { IsSmallDiv small.now }
    requires x { IsOf small.now.input x }
    requires outputs { IsCycle (small_ports exact small.now) outputs.now }
    ensures { IsTrue result ↔ IsGoodSmallQuotient exact small.now x
        (output_numbers (small_ports exact small.now) outputs.now 0)
        (output_numbers (small_ports exact small.now) outputs.now 1) }
{
    let q = output(small.quotient(), outputs[0]);
    if exact {
        let r = output(small.remainder(), outputs[1]);
        is_quotient(
            x.unsigned_abs(),
            small.divisor.into(),
            q.unsigned_abs(),
            r.unsigned_abs(),
        )
    } else {
        good_linear(x, small.divisor.into(), q, Mode::Faithful)
    }
}
