//! The terms of a sum of products as fractions in units of its lowest guard bit.
ghost use Rattle.std.specs.Prelude.{◌≡◌, ◌+◌, ◌*◌, ◌^◌, ◌≤◌, ◌<◌, length, ℤ, pos, neg_ℤ, ◌+ℤ◌, ◌≤ℤ◌, ◌<ℤ◌, unsigned_abs};
ghost use Rattle.opgen_num.specs.declared.limits.TheConstants.{MAX_DENOMINATOR, MAX_NUMERATOR};
ghost use Rattle.opgen_ports.specs.Ranges.{IsInput, IsWithin};
ghost use Rattle.opgen_terms.specs.Sop.{IsSop, IsAcceptedSop, format_of, scaled_term, times_term, offset_term};
ghost use Rattle.opgen_sop.specs.Sizes.{finer, fraction, is_rounded, floor, lost, scaled_fraction, factor, products, placing, turned_fraction, offset_fraction};
ghost use Rattle.opgen_sop.specs.Small.{IsSmallScaled, IsSmallTimes};

use opgen_num::{Format, Ratio};
use opgen_operator::{Scaled, Sop, Times};
use opgen_partial::{Factor, Placing, Products, placed_correction};
use opgen_ports::shifts::{places_down, places_up, raised};

/// The format of an input.
pub(crate) fn format_of(sop: &Sop, input: u32) -> Format
    requires sop { IsSop sop.now }
    requires input { input < length sop.now.inputs }
    ensures value { result ≡ format_of sop.now input }
    ensures is_input { IsInput result }
{
    sop.inputs.as_slice()[input as usize].format
}

// The power of an input's lowest bit.
fn lsb_of(sop: &Sop, input: u32) -> i32
    requires sop { IsSop sop.now }
    requires input { input < length sop.now.inputs }
    ensures value { result ≡ (format_of sop.now input).lsb }
    ensures low { neg_ℤ (pos 64) ≤ℤ result }
    ensures high { result ≤ℤ pos 64 }
{
    format_of(sop, input).lsb
}

// A shift in units of the lowest guard bit.
fn finer(shift: i32, guard: u32) -> i32
    requires low { neg_ℤ (pos 64) ≤ℤ shift }
    requires high { shift ≤ℤ pos 64 }
    requires guard { guard ≤ 11 }
    ensures value { result ≡ finer guard shift }
    ensures low { shift ≤ℤ result }
    ensures high { result ≤ℤ (shift +ℤ pos 11) }
{
    shift + guard as i32
}

// A number over a denominator, at a shift.
fn fraction(den: i64, shift: i32, number: i64) -> Ratio
    requires positive { pos 1 ≤ℤ den }
    requires small { den ≤ℤ MAX_DENOMINATOR }
    requires low { neg_ℤ (pos 64) ≤ℤ shift }
    requires high { shift ≤ℤ pos 75 }
    requires number { IsWithin MAX_NUMERATOR number }
    ensures value { result ≡ fraction den shift number }
    ensures positive { pos 0 <ℤ result.den }
{
    Ratio {
        num: raised(number.into(), places_up(shift)),
        den: raised(den.into(), places_down(shift)),
    }
}

/// Whether a fraction is not whole.
pub(crate) fn is_rounded(fraction: Ratio) -> bool
    requires { pos 0 <ℤ fraction.den }
    ensures { result ≡ is_rounded fraction }
{
    !fraction
        .num
        .unsigned_abs()
        .is_multiple_of(fraction.den.unsigned_abs())
}

/// A fraction, rounded down.
pub(crate) fn floor(fraction: Ratio) -> i128
    requires { pos 0 <ℤ fraction.den }
    ensures { result ≡ floor fraction }
{
    fraction.num.div_euclid(fraction.den)
}

// The shift of a constant times an input.
fn scaled_shift(sop: &Sop, term: Scaled) -> i32
    requires sop { IsSop sop.now }
    requires input { term.input < length sop.now.inputs }
    ensures { result ≡ (scaled_term sop.now term).shift }
{
    lsb_of(sop, term.input) - sop.out_lsb
}

/// A constant in units.
pub(crate) fn scaled_fraction(sop: &Sop, guard: u32, term: Scaled) -> Ratio
    requires sop { IsSop sop.now }
    requires guard { guard ≤ 11 }
    requires term { IsSmallScaled sop.now term }
    ensures value { result ≡ scaled_fraction sop.now guard term }
    ensures positive { pos 0 <ℤ result.den }
{
    let shift = finer(scaled_shift(sop, term), guard);
    fraction(sop.den, shift, term.coefficient)
}

// The shift of the offset.
fn offset_shift(sop: &Sop) -> i32
    requires { IsSop sop.now }
    ensures value { result ≡ (offset_term sop.now).shift }
    ensures low { neg_ℤ (pos 64) ≤ℤ result }
    ensures high { result ≤ℤ pos 64 }
{
    -sop.out_lsb
}

/// The offset in units.
pub(crate) fn offset_fraction(sop: &Sop, guard: u32) -> Ratio
    requires sop { IsSop sop.now }
    requires guard { guard ≤ 11 }
    ensures value { result ≡ offset_fraction sop.now guard }
    ensures positive { pos 0 <ℤ result.den }
{
    let shift = finer(offset_shift(sop), guard);
    fraction(sop.den, shift, sop.offset)
}

// An input as a factor.
fn factor(sop: &Sop, input: u32) -> Factor
    requires sop { IsSop sop.now }
    requires input { input < length sop.now.inputs }
    ensures value { result ≡ factor sop.now input }
    ensures some { 1 ≤ result.width }
    ensures few { result.width ≤ 48 }
{
    let format = format_of(sop, input);
    Factor {
        node: input as usize,
        width: format.width,
        signed: format.signed,
    }
}

// The shift of a product.
fn plain_times_shift(sop: &Sop, term: Times) -> i32
    requires sop { IsSop sop.now }
    requires a { term.a < length sop.now.inputs }
    requires b { term.b < length sop.now.inputs }
    ensures { result ≡ (times_term sop.now term).shift }
{
    let lsb = lsb_of(sop, term.a) + lsb_of(sop, term.b);
    lsb - sop.out_lsb
}

// The same in units of the lowest guard bit.
fn times_shift(sop: &Sop, guard: u32, term: Times) -> i32
    requires sop { IsSop sop.now }
    requires guard { guard ≤ 11 }
    requires term { IsSmallTimes sop.now term }
    ensures value { result ≡ finer guard (times_term sop.now term).shift }
    ensures low { neg_ℤ (pos 48) ≤ℤ result }
    ensures high { result ≤ℤ pos 59 }
{
    finer(plain_times_shift(sop, term), guard)
}

/// The factors of a product, and how many of its lowest columns are left out.
pub(crate) fn products(sop: &Sop, guard: u32, term: Times) -> Products
    requires sop { IsSop sop.now }
    requires guard { guard ≤ 11 }
    requires term { IsSmallTimes sop.now term }
    ensures value { result ≡ products sop.now guard term }
    ensures a { (1 ≤ result.a.width) × (result.a.width ≤ 48) }
    ensures b { (1 ≤ result.b.width) × (result.b.width ≤ 48) }
    ensures few { result.left_out ≤ 48 }
{
    Products {
        a: factor(sop, term.a),
        b: factor(sop, term.b),
        left_out: places_down(times_shift(sop, guard, term)),
    }
}

/// In which columns the bits of a product are.
pub(crate) fn placing(sop: &Sop, guard: u32, term: Times) -> Placing
    requires sop { IsSop sop.now }
    requires guard { guard ≤ 11 }
    requires term { IsSmallTimes sop.now term }
    ensures value { result ≡ placing sop.now guard term }
    ensures raised { result.raised ≤ 59 }
    ensures lowered { result.lowered ≤ 48 }
{
    let shift = times_shift(sop, guard, term);
    Placing {
        square: term.a == term.b,
        negative: term.negative,
        raised: places_up(shift),
        lowered: places_down(shift),
    }
}

/// What makes good the turned bits of a product, in units.
pub(crate) fn turned_fraction(sop: &Sop, guard: u32, term: Times) -> Ratio
    requires sop { IsSop sop.now }
    requires guard { guard ≤ 11 }
    requires term { IsSmallTimes sop.now term }
    ensures value { result ≡ turned_fraction sop.now guard term }
    ensures positive { pos 0 <ℤ result.den }
{
    let placing = placing(sop, guard, term);
    let correction = placed_correction(&products(sop, guard, term), placing);
    Ratio {
        num: raised(correction, placing.raised),
        den: raised(1, placing.lowered),
    }
}
