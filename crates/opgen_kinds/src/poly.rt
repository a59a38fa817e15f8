//! Polynomials of an unsigned input below 1: what holds of them, and the numbers of their circuit by Horner's rule.
ghost use Rattle.std.specs.Prelude.{◌≡◌, ◌*◌, ◌≤◌, ◌^◌, [], ◌∷◌, ℤ, ◌≤ℤ◌, ◌<ℤ◌, codes, IfOk, ◌<◌, pos, neg_ℤ, false, length, get_or, ◌*ℤ◌, unsigned_abs, ◌↔◌, IsTrue, drop};
ghost use Rattle.opgen_ports.specs.Good.{IsGoodRatio};
ghost use Rattle.opgen_ports.specs.Meaning.{IsCycleJudged};
ghost use Rattle.opgen_ports.specs.Profile.{IsProfileOf};
ghost use Rattle.opgen_kinds.specs.Horner.{degree, result_places, poly_guard, guarded, low_end, high_end, partial_width, all_guarded};
ghost use Rattle.opgen_kinds.specs.Poly.{exact_poly, terms_from, poly_format, IsPoly, IsBuiltPoly, poly_meaning, poly_acceptance, IsAcceptedPoly};
ghost use Rattle.opgen_ports.specs.Ports.{number_of, recent_numbers, IsHistory, IsCycle, port, one_input};
ghost use Rattle.opgen_ports.specs.Spans.{IsOf};

use opgen_budget::guard;
use opgen_list::Items;
use opgen_num::{Format, MAX_NUMERATOR, Mode, Ratio, good_linear, least_width, nearest, power};
use opgen_ports::history::{output, recent};
use opgen_ports::modes::is_exact_or_faithful;
use opgen_ports::ports::{PortFormat, one};
use opgen_ports::ranges::{are_within, is_denominator, is_input, is_length};
use opgen_ports::shifts::raised;
use opgen_ports::{Compressor, Profile};
use std::alloc::{AllocError, Global};

/// The sum of `coefs` times powers of an unsigned input below 1, the constant one first, over the
/// common denominator `den`.
#[derive(Drop)]
pub struct Poly {
    pub input: Format,
    pub out_lsb: i32,
    pub coefs: Items<i64>,
    pub den: i64,
    /// How what is added up is brought to one word.
    pub compressor: Compressor,
}

/// The least and the greatest of some values.
#[derive(Clone, Copy, Debug, PartialEq, Eq)]
pub struct Ends {
    pub low: i128,
    pub high: i128,
}

impl Poly {
    /// How many bits are computed below those of the output.
    pub fn guard_bits(&self) -> u32
        requires { IsPoly self.now }
        ensures value { result ≡ poly_guard self.now }
        ensures some { 2 ≤ result }
        ensures few { result ≤ 4 }
    {
        guard(3 * degree(self))
    }

    /// The coefficient at a place in units of the lowest guard bit.
    pub fn guarded(&self, place: usize) -> i128
        requires poly { IsPoly self.now }
        requires place { place < length self.now.coefs }
        ensures value { result ≡ guarded self.now (get_or self.now.coefs place (pos 0)) }
        ensures bound { unsigned_abs result ≤ 2 ^ 50 }
    {
        let coef = self.coefs.as_slice()[place];
        let places = result_places(self) + self.guard_bits();
        nearest(raised(i128::from(coef), places), self.den.into())
    }

    /// How far the partial value of the coefficients from a place on goes, in units of the lowest
    /// guard bit.
    pub fn ends(&self, place: usize) -> Ends
        requires poly { IsPoly self.now }
        requires place { place ≤ length self.now.coefs }
        ensures low { result.low ≡ low_end (drop place (all_guarded self.now)) }
        ensures high { result.high ≡ high_end (drop place (all_guarded self.now)) }
        ensures order { result.low ≤ℤ result.high }
        ensures low_bound { unsigned_abs result.low ≤ 5 * 2 ^ 50 }
        ensures high_bound { unsigned_abs result.high ≤ 5 * 2 ^ 50 }
    {
        let mut ends = Ends { low: 0, high: 0 };
        let mut at = self.coefs.len();
        'places: while at > place {
            at -= 1;
            let coef = self.guarded(at);
            ends = Ends {
                low: coef + ends.low.min(0),
                high: coef + ends.high.max(0),
            };
        }
        ends
    }

    /// The width of that partial value, which is signed.
    pub fn partial_width(&self, place: usize) -> u32
        requires poly { IsPoly self.now }
        requires place { place ≤ length self.now.coefs }
        ensures value { result ≡ partial_width (drop place (all_guarded self.now)) }
        ensures some { 2 ≤ result }
        ensures few { result ≤ 54 }
    {
        let ends = self.ends(place);
        least_width(ends.low.min(-1), ends.high)
    }

    /// The format of the output.
    pub fn output(&self) -> Format
        requires { IsPoly self.now }
        ensures value { result ≡ poly_format self.now }
        ensures some { 1 ≤ result.width }
        ensures few { result.width ≤ 50 }
    {
        let ends = self.ends(0);
        let unit = raised(1, self.guard_bits());
        let low = nearest(ends.low, unit);
        let high = nearest(ends.high, unit);
        Format {
            signed: low < 0,
            width: least_width(low, high),
            lsb: self.out_lsb,
        }
    }

    /// Whether the fields are within the ranges of their keys.
    pub fn is_ranged(&self) -> bool
        ensures { IsTrue result ↔ IsPoly self.now }
    {
        is_input(self.input)
            && is_below_one(self.input)
            && -16 <= self.out_lsb
            && self.out_lsb <= 0
            && is_length(2, 5, self.coefs.len())
            && are_within(MAX_NUMERATOR, self.coefs.as_slice())
            && is_denominator(self.den)
            && self.is_built()
    }

    // Whether a net of a polynomial with these fields is built yet.
    fn is_built(&self) -> bool
        ensures { IsTrue result ↔ IsBuiltPoly self.now }
    {
        self.compressor.is_dadda()
    }

    /// Whether a version of specifications has the operator with these fields.
    pub fn is_in(&self, version: u32) -> bool
        ensures { IsTrue result ↔ (poly_acceptance self.now).IsIn version }
    {
        version != 1
    }

    /// What is said of the operator by numbers and marks alone.
    pub fn profile(&self) -> Profile
        ensures { IsProfileOf (poly_meaning self.now) (poly_acceptance self.now) result }
    {
        Profile {
            least_shift: 0,
            first_most_shift: 0,
            most_shift: 0,
            divisor: None,
            has_value: true,
            has_graph: false,
            own_mark: None,
        }
    }

    /// The input ports, in order.
    pub fn inputs(&self, alloc: Global) -> Result<Vec<PortFormat>, AllocError>
        ensures { IfOk result (λ ports. ports.items ≡ one_input self.now.input) }
    {
        one(alloc, "x", self.input)
    }

    /// The output ports, in order.
    pub fn outputs(&self, alloc: Global) -> Result<Vec<PortFormat>, AllocError>
        requires { IsAcceptedPoly self.now }
        ensures { IfOk result (λ ports. ports.items ≡ port (codes "y") (poly_format self.now) ∷ []) }
    {
        one(alloc, "y", self.output())
    }

    /// The exact value of the output in units of its last place.
    ///
    /// `history` has the words of all input ports, cycle by cycle, up to the cycle that is judged.
    pub fn value(&self, history: &[u128]) -> Ratio
        requires accepted { IsAcceptedPoly self.now }
        requires history { IsHistory (one_input self.now.input) history.now }
        ensures value { result ≡ exact_poly self.now (recent_numbers (one_input self.now.input) history.now 0 0) }
        ensures positive { pos 0 <ℤ result.den }
    {
        exact_poly(self, recent(self.input, history, 0))
    }

    /// Whether the outputs of the last cycle are good, or its inputs out of range.
    pub fn judge(&self, mode: Mode, history: &[u128], outputs: &[u128]) -> bool
        requires accepted { IsAcceptedPoly self.now }
        requires history { IsHistory (one_input self.now.input) history.now }
        requires outputs { IsCycle (port (codes "y") (poly_format self.now) ∷ []) outputs.now }
        ensures { IsCycleJudged (poly_meaning self.now) mode history.now outputs.now result }
    {
        let x = recent(self.input, history, 0);
        is_exact_or_faithful(mode) && poly_is_good(mode, self, x, outputs[0])
    }
}

// Whether a format is unsigned, has at most 16 bits and holds numbers below 1 alone.
fn is_below_one(input: Format) -> bool
    ensures { IsTrue result ↔ ((input.signed ≡ false) × (input.width ≤ 16) × (input.lsb ≡ neg_ℤ (pos input.width))) }
{
    !input.signed && input.width <= 16 && input.lsb == -(input.width as i32)
}

fn degree(poly: &Poly) -> u32
    requires { IsPoly poly.now }
    ensures value { result ≡ degree poly.now }
    ensures some { 1 ≤ result }
    ensures few { result ≤ 4 }
{
    poly.coefs.len() as u32 - 1
}

// How many places after the point the results have.
fn result_places(poly: &Poly) -> u32
    requires { IsPoly poly.now }
    ensures value { result ≡ result_places poly.now }
    ensures few { result ≤ 16 }
{
    poly.out_lsb.unsigned_abs()
}

// A coefficient times a power of the input, over the common denominator.
fn poly_term(coef: i64, factor: u128, places: u32) -> i128
    requires coef { unsigned_abs coef ≤ MAX_NUMERATOR }
    requires small { factor * 2 ^ places ≤ 2 ^ 64 }
    requires few { places ≤ 64 }
    ensures value { result ≡ coef *ℤ pos (factor * 2 ^ places) }
    ensures bound { unsigned_abs result ≤ 2 ^ 94 }
{
    i128::from(coef) * ((factor * power(places)) as i128)
}

// The terms of a polynomial over the common denominator.
fn poly_terms(poly: &Poly, x: u128) -> i128
    requires poly { IsPoly poly.now }
    requires x { x < 2 ^ poly.now.input.width }
    ensures value { result ≡ terms_from 0 poly.now.coefs poly.now.input.width (degree poly.now) x }
    ensures bound { unsigned_abs result ≤ 5 * 2 ^ 94 }
{
    let mut total = 0;
    let mut power = 1;
    let mut places = poly.input.width * degree(poly);
    'coefs: for coef in poly.coefs.as_slice() {
        total += poly_term(*coef, power, places);
        power *= x;
        places = places.saturating_sub(poly.input.width);
    }
    total
}

// The exact value in units of the output's last place.
fn exact_poly(poly: &Poly, x: i128) -> Ratio
    requires poly { IsPoly poly.now }
    requires x { IsOf poly.now.input x }
    ensures value { result ≡ exact_poly poly.now x }
    ensures positive { pos 0 <ℤ result.den }
{
    let total = poly_terms(poly, x.unsigned_abs());
    let numerator = raised(total, result_places(poly));
    let denominator = raised(i128::from(poly.den), poly.input.width * degree(poly));
    Ratio {
        num: numerator,
        den: denominator,
    }
}

fn poly_is_good(mode: Mode, poly: &Poly, x: i128, y: u128) -> bool
    requires poly { IsPoly poly.now }
    requires x { IsOf poly.now.input x }
    requires y { y < 2 ^ (poly_format poly.now).width }
    ensures { IsTrue result ↔ IsGoodRatio mode (exact_poly poly.now x) (number_of (poly_format poly.now) y) }
{
    let value = exact_poly(poly, x);
    let y = output(poly.output(), y);
    good_linear(value.num, value.den, y, mode)
}
