//! Sums of products: their ranges, formats, exact values, and when outputs are good.
ghost use Rattle.std.specs.Prelude.{◌≡◌, ◌≤◌, ◌^◌, [], ◌∷◌, ℤ, neg_ℤ, ◌≤ℤ◌, ◌<ℤ◌, pos, codes, IfOk, ◌↔◌, IsTrue, All, unsigned_abs};
ghost use Rattle.opgen_ports.specs.Meaning.{IsCycleJudged};
ghost use Rattle.opgen_ports.specs.Profile.{IsProfileOf};
ghost use Rattle.opgen_terms.specs.Sop.{IsSop, IsScaled, IsTimes, IsBuiltSop, IsAcceptedSop, HasSmallShift, HasInputs, HasTerms, HasNumbers, Term, is_small_shift, sop_shift, sop_inexact, sop_need, sop_format, sop_places, depth, total_bits, raised, last_numbers, exact_sop, sop_meaning, sop_acceptance};
ghost use Rattle.opgen_ports.specs.Ports.{recent_numbers, IsHistory, IsCycle, port, AreWithin};
ghost use Rattle.opgen_ports.specs.Ranges.{IsInput};
ghost use Rattle.opgen_ports.specs.Reaches.{below_zero, above_zero};

use crate::terms::{count, depth, height, number, term_at, total_bits};
use opgen_list::Items;
use opgen_num::{Format, MAX_NUMERATOR, MAX_SCALED, MAX_WIDTH, Mode, Ratio, good_linear};
use opgen_ports::history::output;
use opgen_ports::modes::is_exact_or_faithful;
use opgen_ports::ports::{PortFormat, covering, one};
use opgen_ports::ranges::{is_denominator, is_input, is_length, is_power};
use opgen_ports::reach::{Reach, in_places, width_of};
use opgen_ports::shifts::{is_whole, raised};
use opgen_ports::{Compressor, MAX_SHIFT, Profile};
use std::alloc::{AllocError, Global};

/// The most bits that the sum of all terms may have, in units of the lowest place. Up to here 128 bits
/// are enough to compute it.
pub const MAX_TOTAL_BITS: u32 = 112;

/// The bits below the output's last place that the limit of signals counts where a term is rounded.
pub const COUNTED_BITS: u32 = 10;

/// A constant times an input.
#[derive(Clone, Copy, Debug, PartialEq, Eq)]
pub struct Scaled {
    /// The place of the input among the inputs.
    pub input: u32,
    pub coefficient: i64,
}

/// A product of two inputs, or of one with itself.
#[derive(Clone, Copy, Debug, PartialEq, Eq)]
pub struct Times {
    /// The places of the factors among the inputs.
    pub a: u32,
    pub b: u32,
    /// Whether the product is subtracted.
    pub negative: bool,
}

/// A sum of constants times inputs, of products of inputs, and of an offset.
#[derive(Drop)]
pub struct Sop {
    pub inputs: Items<PortFormat>,
    pub scaled: Items<Scaled>,
    pub products: Items<Times>,
    /// A number that is added, over the denominator.
    pub offset: i64,
    /// The denominator of the coefficients and of the offset.
    pub den: i64,
    pub out_lsb: i32,
    /// How the output is rounded from its exact value.
    pub mode: Mode,
    /// How what is added up is brought to one word.
    pub compressor: Compressor,
    /// How many inputs the tables of the device have.
    pub lut: u32,
}

impl Sop {
    /// The first shift of a term that is not from -48 to 48, and 0 if there is none.
    pub fn shift(&self) -> i32
        requires { IsSop self.now }
        ensures { result ≡ sop_shift self.now }
    {
        'terms: for place in 0..count(self) {
            let shift = term_at(self, place).shift;
            if !is_small_shift(shift) {
                return shift;
            }
        }
        0
    }

    /// The place of the first term whose factor is not a whole number of units of the output's last
    /// place.
    pub fn inexact(&self) -> Option<u32>
        requires { IsSop self.now }
        ensures { result ≡ sop_inexact self.now }
    {
        'terms: for place in 0..count(self) {
            let term = term_at(self, place);
            if !is_whole(term.factor, self.den, term.shift) {
                return Some(place as u32);
            }
        }
        None
    }

    /// What the limit of signals counts: the width of the output with the bits below its last place, or
    /// the bits of the sum of all terms, if they are more than [`MAX_TOTAL_BITS`].
    pub fn need(&self) -> u32
        requires sop { IsSop self.now }
        requires low { neg_ℤ MAX_SHIFT ≤ℤ sop_shift self.now }
        requires high { sop_shift self.now ≤ℤ MAX_SHIFT }
        ensures { result ≡ sop_need self.now }
    {
        let depth = depth(self);
        let bits = total_bits(self, depth);
        if MAX_TOTAL_BITS < bits {
            return bits;
        }
        let width = width_of(places(self, depth));
        match self.inexact() {
            Some(_) => width + COUNTED_BITS,
            None => width,
        }
    }

    /// The format of the output.
    pub fn output(&self) -> Format
        requires { IsAcceptedSop self.now }
        ensures value { result ≡ sop_format self.now }
        ensures some { 1 ≤ result.width }
        ensures few { result.width ≤ MAX_WIDTH }
    {
        covering(places(self, depth(self)), self.out_lsb)
    }

    /// Whether the fields are within the ranges of their keys.
    pub fn is_ranged(&self) -> bool
        ensures { IsTrue result ↔ IsSop self.now }
    {
        has_inputs(self) && has_terms(self) && has_numbers(self) && self.is_built()
    }

    // Whether a net of a sum of products with these fields is built yet.
    fn is_built(&self) -> bool
        ensures { IsTrue result ↔ IsBuiltSop self.now }
    {
        is_exact_or_faithful(self.mode) && self.compressor.is_of_bits() && self.lut == 6
    }

    /// Whether each input has so many bits at most.
    pub fn has_inputs_within(&self, most: u32) -> bool
        ensures { IsTrue result ↔ AreWithin most self.now.inputs }
    {
        'inputs: for port in self.inputs.as_slice() {
            if most < port.format.width {
                return false;
            }
        }
        true
    }

    /// Whether a version of specifications has the operator with these fields.
    pub fn is_in(&self, version: u32) -> bool
        ensures { IsTrue result ↔ (sop_acceptance self.now).IsIn version }
    {
        version >= 3
    }

    /// What is said of the operator by numbers and marks alone.
    pub fn profile(&self) -> Profile
        ensures { IsProfileOf (sop_meaning self.now) (sop_acceptance self.now) result }
    {
        Profile {
            least_shift: -MAX_SHIFT,
            first_most_shift: MAX_SHIFT,
            most_shift: MAX_SHIFT,
            divisor: None,
            has_value: true,
            has_graph: false,
            own_mark: Some(self.mode),
        }
    }

    /// The input ports, in order.
    pub fn inputs(&self, alloc: Global) -> Result<Vec<PortFormat>, AllocError>
        ensures { IfOk result (λ ports. ports.items ≡ self.now.inputs) }
    {
        let mut ports = Vec::new(alloc);
        'inputs: for port in self.inputs.as_slice() {
            ports.push(PortFormat {
                name: port.name.copy(alloc)?,
                format: port.format,
            })?;
        }
        Ok(ports)
    }

    /// The output ports, in order.
    pub fn outputs(&self, alloc: Global) -> Result<Vec<PortFormat>, AllocError>
        requires { IsAcceptedSop self.now }
        ensures { IfOk result (λ ports. ports.items ≡ port (codes "y") (sop_format self.now) ∷ []) }
    {
        one(alloc, "y", self.output())
    }

    /// The exact value of the output in units of its last place.
    ///
    /// `history` has the words of all input ports, cycle by cycle, up to the cycle that is judged.
    pub fn value(&self, history: &[u128]) -> Ratio
        requires accepted { IsAcceptedSop self.now }
        requires history { IsHistory self.now.inputs history.now }
        ensures value { result ≡ exact_sop self.now (λ input. recent_numbers self.now.inputs history.now input 0) }
        ensures positive { pos 0 <ℤ result.den }
    {
        let depth = depth(self);
        Ratio {
            num: total(self, depth, history),
            den: raised(i128::from(self.den), depth),
        }
    }

    /// Whether the outputs of the last cycle are good, or its inputs out of range.
    pub fn judge(&self, mode: Mode, history: &[u128], outputs: &[u128]) -> bool
        requires accepted { IsAcceptedSop self.now }
        requires history { IsHistory self.now.inputs history.now }
        requires outputs { IsCycle (port (codes "y") (sop_format self.now) ∷ []) outputs.now }
        ensures { IsCycleJudged (sop_meaning self.now) mode history.now outputs.now result }
    {
        let value = self.value(history);
        let y = output(self.output(), outputs[0]);
        good_linear(value.num, value.den, y, mode)
    }
}

fn is_small_shift(shift: i32) -> bool
    ensures { result ≡ is_small_shift shift }
{
    -MAX_SHIFT <= shift && shift <= MAX_SHIFT
}

fn are_inputs(ports: &[PortFormat]) -> bool
    ensures { IsTrue result ↔ All (λ (p : PortFormat). IsInput p.format) ports.now }
{
    'ports: for port in ports {
        if !is_input(port.format) {
            return false;
        }
    }
    true
}

fn are_scaled(inputs: usize, scaled: &[Scaled]) -> bool
    ensures { IsTrue result ↔ All (IsScaled inputs) scaled.now }
{
    'scaled: for term in scaled {
        if term.input as usize >= inputs || term.coefficient.unsigned_abs() > MAX_NUMERATOR {
            return false;
        }
    }
    true
}

fn are_times(inputs: usize, products: &[Times]) -> bool
    ensures { IsTrue result ↔ All (IsTimes inputs) products.now }
{
    'products: for term in products {
        if term.a as usize >= inputs || term.b as usize >= inputs {
            return false;
        }
    }
    true
}

// Whether there are 1 to 16 inputs, with formats within their ranges.
fn has_inputs(sop: &Sop) -> bool
    ensures { IsTrue result ↔ HasInputs sop.now }
{
    is_length(1, 16, sop.inputs.len()) && are_inputs(sop.inputs.as_slice())
}

// Whether the offset, the lowest place of the output and the denominator are within their ranges.
fn has_numbers(sop: &Sop) -> bool
    ensures { IsTrue result ↔ HasNumbers sop.now }
{
    sop.offset.unsigned_abs() <= MAX_NUMERATOR && is_power(sop.out_lsb) && is_denominator(sop.den)
}

// Whether the number of terms, their coefficients and the places of their inputs are within their ranges.
fn has_terms(sop: &Sop) -> bool
    ensures { IsTrue result ↔ HasTerms sop.now }
{
    let inputs = sop.inputs.len();
    let scaled = sop.scaled.as_slice();
    let products = sop.products.as_slice();
    scaled.len() <= MAX_SCALED as usize
        && products.len() <= 16
        && 1 <= scaled.len() + products.len()
        && are_scaled(inputs, scaled)
        && are_times(inputs, products)
}

// The sums of the least and of the greatest numbers of the terms, in units of the lowest place.
fn ends(sop: &Sop, below: u32) -> (i128, i128)
    requires sop { IsSop sop.now }
    requires shift { HasSmallShift sop.now }
    requires few { total_bits sop.now ≤ MAX_TOTAL_BITS }
    requires below { below ≡ depth sop.now }
    ensures least { result.0 ≡ raised sop.now (λ (t : Term). t.least) }
    ensures most { result.1 ≡ raised sop.now (λ (t : Term). t.most) }
    ensures least_small { unsigned_abs result.0 ≤ 2 ^ MAX_TOTAL_BITS }
    ensures most_small { unsigned_abs result.1 ≤ 2 ^ MAX_TOTAL_BITS }
{
    let mut least = 0;
    let mut most = 0;
    'terms: for place in 0..count(sop) {
        let term = term_at(sop, place);
        let height = height(sop, place, below);
        least += raised(term.least, height);
        most += raised(term.most, height);
    }
    (least, most)
}

// The sum of the numbers of the terms in the last cycle, in units of the lowest place.
fn total(sop: &Sop, below: u32, history: &[u128]) -> i128
    requires sop { IsSop sop.now }
    requires shift { HasSmallShift sop.now }
    requires few { total_bits sop.now ≤ MAX_TOTAL_BITS }
    requires below { below ≡ depth sop.now }
    requires history { IsHistory sop.now.inputs history.now }
    ensures { result ≡ raised sop.now (λ (t : Term). t.number (last_numbers sop.now history.now)) }
{
    let mut total = 0;
    'terms: for place in 0..count(sop) {
        let height = height(sop, place, below);
        total += raised(number(sop, place, history), height);
    }
    total
}

fn below_zero(n: i128) -> u128
    ensures value { result ≡ below_zero n }
    ensures bound { result ≤ unsigned_abs n }
{
    if n < 0 { n.unsigned_abs() } else { 0 }
}

fn above_zero(n: i128) -> u128
    ensures value { result ≡ above_zero n }
    ensures bound { result ≤ unsigned_abs n }
{
    if n < 0 { 0 } else { n.unsigned_abs() }
}

// The shift by this number of places down.
fn down(places: u32) -> i32
    requires { places ≤ 48 }
    ensures value { result ≡ neg_ℤ (pos places) }
    ensures low { neg_ℤ MAX_SHIFT ≤ℤ result }
    ensures high { result ≤ℤ MAX_SHIFT }
{
    -(places as i32)
}

// How far a sum goes in units of the output's last place.
fn places(sop: &Sop, below: u32) -> Reach
    requires sop { IsSop sop.now }
    requires shift { HasSmallShift sop.now }
    requires few { total_bits sop.now ≤ MAX_TOTAL_BITS }
    requires below { below ≡ depth sop.now }
    ensures value { result ≡ sop_places sop.now }
    ensures below { result.below ≤ 2 ^ 120 }
    ensures above { result.above ≤ 2 ^ 120 }
{
    let (least, most) = ends(sop, below);
    let reach = Reach {
        below: below_zero(least),
        above: above_zero(most),
    };
    in_places(reach, down(below), sop.den)
}
