//! Sums of the last inputs times constants: what holds of multiples of one input and of filters of finite response.
ghost use Rattle.std.specs.Prelude.{◌≡◌, ◌+◌, ◌≤◌, ◌^◌, [], ◌∷◌, ℤ, neg_ℤ, ◌≤ℤ◌, codes, IfOk, ◌<◌, pos, length, negsuc, All, ◌<ℤ◌, ◌↔◌, IsTrue};
ghost use Rattle.opgen_ports.specs.Good.{IsGoodRatio};
ghost use Rattle.opgen_ports.specs.Meaning.{IsCycleJudged};
ghost use Rattle.opgen_ports.specs.Profile.{IsProfileOf};
ghost use Rattle.opgen_kinds.specs.Sum.{sum_shift, HasSumRoom, sum_format, IsSum, IsBuiltSum, IsAcceptedSum, guard_bits, first_inexact_of, first_inexact, weighted_value, sum_reach, sum_places, terms, tables, sum_need, exact_sum, sum_meaning, fir_acceptance};
ghost use Rattle.opgen_ports.specs.Reaches.{places_up};
ghost use Rattle.opgen_ports.specs.Ports.{number_of, recent_numbers, IsHistory, IsCycle, port, one_input};
ghost use Rattle.opgen_ports.specs.Ranges.{IsInput, IsWithin};

use opgen_budget::guard;
use opgen_list::Items;
use opgen_num::{
    Format, MAX_DENOMINATOR, MAX_NUMERATOR, MAX_TAPS, MAX_WIDTH, Mode, Ratio, good_linear,
};
use opgen_ports::history::{output, weighted};
use opgen_ports::modes::is_exact_or_faithful;
use opgen_ports::ports::{PortFormat, covering, one};
use opgen_ports::ranges::{are_near, are_within, is_denominator, is_input, is_length, is_power};
use opgen_ports::reach::{Reach, in_places, reach_over, width_of};
use opgen_ports::shifts::{is_whole, places_down, places_up, raised};
use opgen_ports::{Compressor, MAX_SHIFT, Profile};
use std::alloc::{AllocError, Global};

/// A sum of the last inputs times `coefs`, over the common denominator `den`.
#[derive(Drop)]
pub struct Sum {
    pub input: Format,
    pub out_lsb: i32,
    pub coefs: Items<i64>,
    pub den: i64,
    /// How the output is rounded from its exact value.
    pub mode: Mode,
    /// How what is added up is brought to one word.
    pub compressor: Compressor,
    /// How many inputs the tables of the device have.
    pub lut: u32,
}

impl Sum {
    /// The power of two that brings the exact value into units of the output's last place.
    pub fn shift(&self) -> i32
        requires { IsAcceptedSum self.now }
        ensures value { result ≡ sum_shift self.now }
        ensures low { neg_ℤ MAX_SHIFT ≤ℤ result }
        ensures high { result ≤ℤ MAX_SHIFT }
    {
        sum_shift(self)
    }

    /// The format of the output.
    pub fn output(&self) -> Format
        requires { IsAcceptedSum self.now }
        ensures value { result ≡ sum_format self.now }
        ensures some { 1 ≤ result.width }
        ensures few { result.width ≤ MAX_WIDTH }
    {
        sum_format(self)
    }

    /// How many bits are computed below those of the output, none where each coefficient is whole.
    pub fn guard_bits(&self) -> u32
        requires { IsAcceptedSum self.now }
        ensures value { result ≡ guard_bits self.now }
        ensures bound { result ≤ 12 }
        ensures width { (sum_format self.now).width + result ≤ MAX_WIDTH }
    {
        guard_bits(self)
    }

    /// Whether the fields are within the ranges of their keys, with so many coefficients at most.
    pub fn is_ranged(&self, most: usize) -> bool
        ensures { IsTrue result ↔ IsSum most self.now }
    {
        is_input(self.input)
            && is_power(self.out_lsb)
            && is_length(1, most, self.coefs.len())
            && are_within(MAX_NUMERATOR, self.coefs.as_slice())
            && is_denominator(self.den)
            && self.is_built()
    }

    // Whether a net of a sum with these fields is built yet.
    fn is_built(&self) -> bool
        ensures { IsTrue result ↔ IsBuiltSum self.now }
    {
        is_exact_or_faithful(self.mode) && self.compressor.is_of_bits() && self.lut == 6
    }

    /// Whether a version of specifications has the operator with these fields.
    pub fn is_in(&self, version: u32) -> bool
        ensures { IsTrue result ↔ (fir_acceptance self.now).IsIn version }
    {
        (version != 1 || !self.compressor.has_counters())
            && are_near(version, &[self.input.lsb, self.out_lsb])
    }

    /// What is said of the operator by numbers and marks alone.
    pub fn profile(&self) -> Profile
        ensures { IsProfileOf (sum_meaning self.now) (fir_acceptance self.now) result }
    {
        Profile {
            least_shift: -MAX_SHIFT,
            first_most_shift: MAX_SHIFT,
            most_shift: 32,
            divisor: None,
            has_value: true,
            has_graph: false,
            own_mark: Some(self.mode),
        }
    }

    /// The input ports, in order.
    pub fn inputs(&self, alloc: Global) -> Result<Vec<PortFormat>, AllocError>
        ensures { IfOk result (λ ports. ports.items ≡ one_input self.now.input) }
    {
        one(alloc, "x", self.input)
    }

    /// The output ports, in order.
    pub fn outputs(&self, alloc: Global) -> Result<Vec<PortFormat>, AllocError>
        requires { IsAcceptedSum self.now }
        ensures { IfOk result (λ ports. ports.items ≡ port (codes "y") (sum_format self.now) ∷ []) }
    {
        one(alloc, "y", self.output())
    }

    /// The exact value of the output in units of its last place.
    ///
    /// `history` has the words of all input ports, cycle by cycle, up to the cycle that is judged.
    pub fn value(&self, history: &[u128]) -> Ratio
        requires accepted { IsAcceptedSum self.now }
        requires history { IsHistory (one_input self.now.input) history.now }
        ensures value { result ≡ exact_sum self.now (recent_numbers (one_input self.now.input) history.now 0) }
        ensures positive { pos 0 <ℤ result.den }
    {
        exact_sum(self, history)
    }

    /// Whether the outputs of the last cycle are good, or its inputs out of range.
    pub fn judge(&self, mode: Mode, history: &[u128], outputs: &[u128]) -> bool
        requires accepted { IsAcceptedSum self.now }
        requires history { IsHistory (one_input self.now.input) history.now }
        requires outputs { IsCycle (port (codes "y") (sum_format self.now) ∷ []) outputs.now }
        ensures { IsCycleJudged (sum_meaning self.now) mode history.now outputs.now result }
    {
        sum_is_good(mode, self, history, outputs[0])
    }
}

pub fn sum_shift(sum: &Sum) -> i32
    requires { IsSum MAX_TAPS sum.now }
    ensures value { result ≡ sum_shift sum.now }
    ensures low { negsuc 127 ≤ℤ result }
    ensures high { result ≤ℤ pos 128 }
{
    sum.input.lsb - sum.out_lsb
}

/// The place of the first coefficient that is not a whole number of units.
pub fn first_inexact_of(coefs: &[i64], den: i64, shift: i32) -> Option<u32>
    requires few { length coefs.now ≤ MAX_TAPS }
    requires coefs { All (IsWithin MAX_NUMERATOR) coefs.now }
    requires positive { pos 1 ≤ℤ den }
    requires small { den ≤ℤ MAX_DENOMINATOR }
    ensures { result ≡ first_inexact_of den shift coefs.now }
{
    let mut index = 0;
    'coefs: for coef in coefs {
        if !is_whole(*coef, den, shift) {
            return Some(index);
        }
        index += 1;
    }
    None
}

/// The place of the first coefficient of a sum that is not a whole number of units.
pub fn first_inexact(sum: &Sum) -> Option<u32>
    requires { IsSum MAX_TAPS sum.now }
    ensures { result ≡ first_inexact sum.now }
{
    first_inexact_of(sum.coefs.as_slice(), sum.den, sum_shift(sum))
}

// How far a sum goes, over its denominator.
fn sum_reach(sum: &Sum) -> Reach
    requires { IsSum MAX_TAPS sum.now }
    ensures value { result ≡ sum_reach sum.now }
    ensures below { result.below ≤ 2 ^ (sum.now.input.width + 39) }
    ensures above { result.above ≤ 2 ^ (sum.now.input.width + 39) }
{
    reach_over(sum.input, sum.coefs.as_slice())
}

/// How far a sum goes in units of the output's last place.
pub fn sum_places(sum: &Sum) -> Reach
    requires sum { IsSum MAX_TAPS sum.now }
    requires low { neg_ℤ MAX_SHIFT ≤ℤ sum_shift sum.now }
    requires high { sum_shift sum.now ≤ℤ MAX_SHIFT }
    requires room { HasSumRoom sum.now }
    ensures value { result ≡ sum_places sum.now }
    ensures below { result.below ≤ 2 ^ 120 }
    ensures above { result.above ≤ 2 ^ 120 }
{
    in_places(sum_reach(sum), sum_shift(sum), sum.den)
}

// How many coefficients are not 0.
fn terms(coefs: &[i64]) -> u32
    requires { length coefs.now ≤ MAX_TAPS }
    ensures value { result ≡ terms coefs.now }
    ensures bound { result ≤ MAX_TAPS }
{
    let mut count = 0;
    'coefs: for coef in coefs {
        if coef.unsigned_abs() != 0 {
            count += 1;
        }
    }
    count
}

// How many tables round.
fn tables(sum: &Sum) -> u32
    requires { IsSum MAX_TAPS sum.now }
    ensures value { result ≡ tables sum.now }
    ensures bound { result ≤ 2048 }
{
    terms(sum.coefs.as_slice()) * sum.input.width.div_ceil(6)
}

fn guard_bits(sum: &Sum) -> u32
    requires { IsSum MAX_TAPS sum.now }
    ensures value { result ≡ guard_bits sum.now }
    ensures bound { result ≤ 12 }
{
    match first_inexact(sum) {
        Some(_) => guard(tables(sum)),
        None => 0,
    }
}

/// The width of the widest signal of a sum.
pub fn sum_need(sum: &Sum) -> u32
    requires sum { IsSum MAX_TAPS sum.now }
    requires low { neg_ℤ MAX_SHIFT ≤ℤ sum_shift sum.now }
    requires high { sum_shift sum.now ≤ℤ MAX_SHIFT }
    requires room { HasSumRoom sum.now }
    ensures { result ≡ sum_need sum.now }
{
    width_of(sum_places(sum)) + guard_bits(sum)
}

fn sum_format(sum: &Sum) -> Format
    requires sum { IsSum MAX_TAPS sum.now }
    requires low { neg_ℤ MAX_SHIFT ≤ℤ sum_shift sum.now }
    requires high { sum_shift sum.now ≤ℤ MAX_SHIFT }
    requires room { HasSumRoom sum.now }
    ensures { result ≡ sum_format sum.now }
{
    covering(sum_places(sum), sum.out_lsb)
}

/// The sum of the last inputs times coefficients, in units of the output's last place.
pub fn weighted_value(input: Format, coefs: &[i64], den: i64, shift: i32, history: &[u128]) -> Ratio
    requires input { IsInput input }
    requires few { length coefs.now ≤ MAX_TAPS }
    requires coefs { All (IsWithin MAX_NUMERATOR) coefs.now }
    requires positive { pos 1 ≤ℤ den }
    requires small { den ≤ℤ MAX_DENOMINATOR }
    requires low { neg_ℤ MAX_SHIFT ≤ℤ shift }
    requires room { input.width + places_up shift ≤ 80 }
    requires history { IsHistory (one_input input) history.now }
    ensures value { result ≡ weighted_value coefs.now den shift (recent_numbers (one_input input) history.now 0) }
    ensures positive { pos 0 <ℤ result.den }
{
    let total = weighted(input, coefs, history);
    Ratio {
        num: raised(total, places_up(shift)),
        den: raised(i128::from(den), places_down(shift)),
    }
}

fn exact_sum(sum: &Sum, history: &[u128]) -> Ratio
    requires sum { IsSum MAX_TAPS sum.now }
    requires low { neg_ℤ MAX_SHIFT ≤ℤ sum_shift sum.now }
    requires high { sum_shift sum.now ≤ℤ MAX_SHIFT }
    requires room { HasSumRoom sum.now }
    requires history { IsHistory (one_input sum.now.input) history.now }
    ensures value { result ≡ exact_sum sum.now (recent_numbers (one_input sum.now.input) history.now 0) }
    ensures positive { pos 0 <ℤ result.den }
{
    weighted_value(
        sum.input,
        sum.coefs.as_slice(),
        sum.den,
        sum_shift(sum),
        history,
    )
}

fn sum_is_good(mode: Mode, sum: &Sum, history: &[u128], y: u128) -> bool
    requires sum { IsSum MAX_TAPS sum.now }
    requires low { neg_ℤ MAX_SHIFT ≤ℤ sum_shift sum.now }
    requires high { sum_shift sum.now ≤ℤ MAX_SHIFT }
    requires room { HasSumRoom sum.now }
    requires narrow { (sum_format sum.now).width ≤ MAX_WIDTH }
    requires history { IsHistory (one_input sum.now.input) history.now }
    requires y { y < 2 ^ (sum_format sum.now).width }
    ensures { IsTrue result ↔ IsGoodRatio mode
        (exact_sum sum.now (recent_numbers (one_input sum.now.input) history.now 0))
        (number_of (sum_format sum.now) y) }
{
    let value = exact_sum(sum, history);
    good_linear(value.num, value.den, output(sum_format(sum), y), mode)
}
