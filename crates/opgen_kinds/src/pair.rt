//! Quotients of two inputs, both signed or none: what holds of them and of their remainders.
ghost use Rattle.std.specs.Prelude.{◌≡◌, ◌≤◌, ℤ, ◌≤ℤ◌, IfOk, pos, ◌≢◌, ◌↔◌, ◌<◌, ◌^◌, Some, unsigned_abs, IsTrue};
ghost use Rattle.std.specs.Option.{option_map};
ghost use Rattle.opgen_ports.specs.Modes.{mode_of_exact};
ghost use Rattle.opgen_ports.specs.Meaning.{IsCycleJudged, IsNonzeroAt};
ghost use Rattle.opgen_ports.specs.Profile.{IsProfileOf};
ghost use Rattle.opgen_kinds.specs.Pair.{quotient_format, remainder_format, sign_bit, over, exact_quotient, quotient_value, IsTruncated, IsPair, IsPairIn, IsAcceptedPair, pair_shift, IsGoodQuotient, quotient_ports, pair_meaning, pair_acceptance};
ghost use Rattle.opgen_ports.specs.Ports.{recent_numbers, output_numbers, IsHistory, IsCycle, two_inputs};
ghost use Rattle.opgen_ports.specs.Ranges.{IsNear};
ghost use Rattle.opgen_ports.specs.Spans.{IsOf};

use opgen_num::{Format, MAX_WIDTH, Mode, Ratio, good_linear};
use opgen_ports::history::{last_two, output};
use opgen_ports::modes::mode_of_exact;
use opgen_ports::ports::{PortFormat, operands, with_rest};
use opgen_ports::ranges::{is_input, is_near};
use opgen_ports::shifts::{places_up, raised};
use opgen_ports::{MAX_SHIFT, Profile, Recurrence};
use std::alloc::{AllocError, Global};

/// The dividend `a` and the divisor `b`.
#[derive(Clone, Copy, Debug, PartialEq, Eq)]
pub struct Pair {
    pub a: Format,
    pub b: Format,
    pub out_lsb: i32,
    pub exact: bool,
    /// How the digits of the quotient are found.
    pub recurrence: Recurrence,
}

impl Pair {
    /// The power of two that brings the exact value into units of the quotient's last place.
    pub fn shift(&self) -> i32
        requires { IsAcceptedPair self.now }
        ensures value { result ≡ pair_shift self.now }
        ensures low { pos 0 ≤ℤ result }
        ensures high { result ≤ℤ MAX_SHIFT }
    {
        pair_shift(self)
    }

    /// The format of the quotient.
    pub fn quotient(&self) -> Format
        requires { IsAcceptedPair self.now }
        ensures value { result ≡ quotient_format self.now }
        ensures few { result.width ≤ MAX_WIDTH }
    {
        quotient_format(self)
    }

    /// The format of the remainder.
    pub fn remainder(&self) -> Format
        requires { IsAcceptedPair self.now }
        ensures { result ≡ remainder_format self.now }
    {
        remainder_format(self)
    }

    /// Whether the fields are within the ranges of their keys.
    pub fn is_ranged(&self) -> bool
        ensures { IsTrue result ↔ IsPair self.now }
    {
        is_input(self.a)
            && is_input(self.b)
            && self.a.signed == self.b.signed
            && are_lowest_bits_near(self)
    }

    /// Whether a version of specifications has the operator with these fields.
    pub fn is_in(&self, version: u32) -> bool
        ensures { IsTrue result ↔ IsPairIn version self.now }
    {
        (version >= 3 || !self.a.signed) && (version >= 4 || self.recurrence.is_restoring())
    }

    /// What is said of the operator by numbers and marks alone.
    #[tactic(auto, using(crate::proofs::of_kind::Pair::valued))]
    pub fn profile(&self) -> Profile
        ensures { IsProfileOf (pair_meaning self.now) (pair_acceptance self.now) result }
    {
        Profile {
            least_shift: 0,
            first_most_shift: MAX_SHIFT,
            most_shift: MAX_SHIFT,
            divisor: Some(1),
            has_value: !self.exact,
            has_graph: false,
            own_mark: Some(mode_of_exact(self.exact)),
        }
    }

    /// The input ports, in order.
    pub fn inputs(&self, alloc: Global) -> Result<Vec<PortFormat>, AllocError>
        ensures { IfOk result (λ ports. ports.items ≡ two_inputs self.now.a self.now.b) }
    {
        operands(alloc, self.a, self.b)
    }

    /// The output ports, in order.
    pub fn outputs(&self, alloc: Global) -> Result<Vec<PortFormat>, AllocError>
        requires { IsAcceptedPair self.now }
        ensures { IfOk result (λ ports. ports.items ≡ quotient_ports self.now.exact self.now) }
    {
        with_rest(alloc, self.exact, "q", self.quotient(), self.remainder())
    }

    /// Whether the inputs of the last cycle are in range: the divisor is not 0.
    ///
    /// `history` has the words of all input ports, cycle by cycle, up to the cycle that is judged.
    pub fn is_in_range(&self, history: &[u128]) -> bool
        requires accepted { IsAcceptedPair self.now }
        requires history { IsHistory (two_inputs self.now.a self.now.b) history.now }
        ensures { IsTrue result ↔ IsNonzeroAt (Some 1) (recent_numbers (two_inputs self.now.a self.now.b) history.now) }
    {
        last_two(self.a, self.b, history).1 != 0
    }

    /// The exact value of the output of a faithful quotient in units of its last place. An exact one has
    /// none, but its remainder.
    ///
    /// `history` has the words of all input ports, cycle by cycle, up to the cycle that is judged.
    pub fn value(&self, history: &[u128]) -> Option<Ratio>
        requires accepted { IsAcceptedPair self.now }
        requires history { IsHistory (two_inputs self.now.a self.now.b) history.now }
        ensures { result ≡ option_map (λ value. value (recent_numbers (two_inputs self.now.a self.now.b) history.now))
            (quotient_value self.now.exact self.now) }
    {
        if self.exact {
            return None;
        }
        let (a, b) = last_two(self.a, self.b, history);
        Some(exact_quotient(self, a, b))
    }

    /// Whether the outputs of the last cycle are good, or its inputs out of range.
    pub fn judge(&self, history: &[u128], outputs: &[u128]) -> bool
        requires accepted { IsAcceptedPair self.now }
        requires history { IsHistory (two_inputs self.now.a self.now.b) history.now }
        requires outputs { IsCycle (quotient_ports self.now.exact self.now) outputs.now }
        ensures { IsCycleJudged (pair_meaning self.now) (mode_of_exact self.now.exact) history.now outputs.now result }
    {
        let (a, b) = last_two(self.a, self.b, history);
        quotient_is_good(self.exact, self, a, b, outputs)
    }
}

// Whether the powers of the lowest bits are within their ranges.
fn are_lowest_bits_near(pair: &Pair) -> bool
    ensures { IsTrue result ↔ (IsNear pair.now.a.lsb × IsNear pair.now.b.lsb × IsNear pair.now.out_lsb) }
{
    is_near(pair.a.lsb) && is_near(pair.b.lsb) && is_near(pair.out_lsb)
}

pub fn pair_shift(pair: &Pair) -> i32
    requires { IsPair pair.now }
    ensures { result ≡ pair_shift pair.now }
{
    pair.a.lsb - pair.b.lsb - pair.out_lsb
}

// The bit of a sign.
fn sign_bit(signed: bool) -> u32
    ensures value { result ≡ sign_bit signed }
    ensures few { result ≤ 1 }
{
    if signed { 1 } else { 0 }
}

/// The width of the widest signal.
pub fn pair_need(pair: &Pair) -> u32
    requires { IsPair pair.now }
    ensures { result ≡ (quotient_format pair.now).width }
{
    pair.a.width + places_up(pair_shift(pair)) + sign_bit(pair.a.signed)
}

fn quotient_format(pair: &Pair) -> Format
    requires { IsPair pair.now }
    ensures { result ≡ quotient_format pair.now }
{
    Format {
        signed: pair.a.signed,
        width: pair_need(pair),
        lsb: pair.out_lsb,
    }
}

fn remainder_format(pair: &Pair) -> Format
    requires { IsPair pair.now }
    ensures { result ≡ remainder_format pair.now }
{
    Format {
        signed: pair.b.signed,
        width: pair.b.width,
        lsb: pair.b.lsb + pair.out_lsb,
    }
}

// A fraction whose denominator is above 0.
fn over(n: i128, b: i128) -> Ratio
    requires n { unsigned_abs n < 2 ^ 126 }
    requires b { unsigned_abs b < 2 ^ 126 }
    ensures { result ≡ over n b }
{
    if b < 0 {
        Ratio { num: -n, den: -b }
    } else {
        Ratio { num: n, den: b }
    }
}

// The quotient of two numbers in units of its last place.
fn exact_quotient(pair: &Pair, a: i128, b: i128) -> Ratio
    requires pair { IsPair pair.now }
    requires low { pos 0 ≤ℤ pair_shift pair.now }
    requires high { pair_shift pair.now ≤ℤ MAX_SHIFT }
    requires narrow { (quotient_format pair.now).width ≤ MAX_WIDTH }
    requires a { IsOf pair.now.a a }
    requires b { IsOf pair.now.b b }
    ensures { result ≡ exact_quotient pair.now a b }
{
    let shifted = raised(a, places_up(pair_shift(pair)));
    over(shifted, b)
}

// Whether `q` is `n / b` rounded towards 0, and `r` the remainder.
fn is_truncated(n: i128, b: i128, q: i128, r: i128) -> bool
    requires n { unsigned_abs n < 2 ^ 126 }
    requires b { b ≢ pos 0 }
    ensures { IsTrue result ↔ IsTruncated n b q r }
{
    q == n / b && r == n % b
}

fn quotient_is_good(exact: bool, pair: &Pair, a: i128, b: i128, outputs: &[u128]) -> bool
    requires pair { IsPair pair.now }
    requires low { pos 0 ≤ℤ pair_shift pair.now }
    requires high { pair_shift pair.now ≤ℤ MAX_SHIFT }
    requires narrow { (quotient_format pair.now).width ≤ MAX_WIDTH }
    requires a { IsOf pair.now.a a }
    requires b { IsOf pair.now.b b }
    requires outputs { IsCycle (quotient_ports exact pair.now) outputs.now }
    ensures in_range { b ≢ pos 0 → (IsTrue result ↔ IsGoodQuotient exact pair.now a b
        (output_numbers (quotient_ports exact pair.now) outputs.now 0)
        (output_numbers (quotient_ports exact pair.now) outputs.now 1)) }
    ensures out_of_range { b ≡ pos 0 → IsTrue result }
{
    if b == 0 {
        return true;
    }
    let shifted = raised(a, places_up(pair_shift(pair)));
    let q = output(quotient_format(pair), outputs[0]);
    if exact {
        let r = output(remainder_format(pair), outputs[1]);
        is_truncated(shifted, b, q, r)
    } else {
        let value = over(shifted, b);
        good_linear(value.num, value.den, q, Mode::Faithful)
    }
}
