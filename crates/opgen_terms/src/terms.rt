//! The terms of a sum of products: their shifts, ends and numbers.
ghost use Rattle.std.specs.Prelude.{◌≡◌, ◌≤◌, ◌<◌, ◌^◌, ◌+◌, ◌*◌, ◌*ℤ◌, ℤ, pos, neg_ℤ, length, unsigned_abs};
ghost use Rattle.opgen_terms.specs.Sop.{IsSop, IsScaled, IsTimes, HasSmallShift, format_of, size_of, square_reach, times_reach, turned_if, signed_if, scaled_term, times_term, offset_term, terms_of, term_at, plain, depth, height, total_bits, last_numbers};
ghost use Rattle.opgen_num.specs.Formats.{digit_count};
ghost use Rattle.opgen_ports.specs.Ports.{IsHistory};
ghost use Rattle.opgen_ports.specs.Ranges.{IsInput};
ghost use Rattle.opgen_ports.specs.Reaches.{reach_of_product, places_up};
ghost use Rattle.opgen_ports.specs.Spans.{IsOf};

use crate::sop::{Scaled, Sop, Times};
use opgen_num::{Format, MAX_NUMERATOR, bit_length};
use opgen_ports::history::{input as number_of, product};
use opgen_ports::reach::{Reach, reach_of, reach_of_product, reach_over};
use opgen_ports::shifts::{places_down, places_up};

/// What a term is for every number of the inputs.
#[derive(Clone, Copy, Debug, PartialEq, Eq)]
pub(crate) struct Term {
    pub shift: i32,
    /// The least and the greatest value of the term, in units of two to the shift, over the denominator.
    pub least: i128,
    pub most: i128,
    /// The greatest size of a value, without its sign.
    pub size: u128,
    /// The coefficient, the denominator of a product, or the offset.
    pub factor: i64,
}

fn format_of(sop: &Sop, input: u32) -> Format
    requires sop { IsSop sop.now }
    requires input { input < length sop.now.inputs }
    ensures value { result ≡ format_of sop.now input }
    ensures input { IsInput result }
{
    sop.inputs.get(input as usize).format
}

// The greatest size of a number of a format, without its sign.
fn size_of(format: Format) -> u128
    requires { IsInput format }
    ensures value { result ≡ size_of format }
    ensures bound { result ≤ 2 ^ format.width }
{
    let reach = reach_of(format);
    reach.below.max(reach.above)
}

// A number above 0, from its size.
fn positive(size: u128) -> i128
    requires { size ≤ 2 ^ 96 }
    ensures { result ≡ pos size }
{
    size as i128
}

// A number below 0, from its size.
fn negated(size: u128) -> i128
    requires { size ≤ 2 ^ 96 }
    ensures { result ≡ neg_ℤ (pos size) }
{
    -(size as i128)
}

// A number times the denominator.
fn over(den: i64, number: i128) -> i128
    requires den { unsigned_abs den ≤ 2 ^ 30 }
    requires number { unsigned_abs number ≤ 2 ^ 96 }
    ensures { result ≡ den *ℤ number }
{
    i128::from(den) * number
}

// The size of a number times the factor of its term.
fn size_with(factor: i64, size: u128) -> u128
    requires factor { unsigned_abs factor ≤ MAX_NUMERATOR }
    requires size { size ≤ 2 ^ 96 }
    ensures { result ≡ unsigned_abs factor * size }
{
    u128::from(factor.unsigned_abs()) * size
}

fn scaled_term(sop: &Sop, scaled: Scaled) -> Term
    requires sop { IsSop sop.now }
    requires scaled { IsScaled (length sop.now.inputs) scaled }
    ensures { result ≡ plain (scaled_term sop.now scaled) }
{
    let format = format_of(sop, scaled.input);
    let reach = reach_over(format, &[scaled.coefficient]);
    Term {
        shift: format.lsb - sop.out_lsb,
        least: negated(reach.below),
        most: positive(reach.above),
        size: size_with(scaled.coefficient, size_of(format)),
        factor: scaled.coefficient,
    }
}

// How far the product of an input with itself goes.
fn square_reach(format: Format) -> Reach
    requires { IsInput format }
    ensures value { result ≡ square_reach format }
    ensures below { result.below ≤ 2 ^ (format.width + format.width) }
    ensures above { result.above ≤ 2 ^ (format.width + format.width) }
{
    let size = size_of(format);
    Reach {
        below: 0,
        above: size * size,
    }
}

// The range with its ends exchanged, if the product is subtracted.
fn turned(negative: bool, reach: Reach) -> Reach
    ensures { result ≡ turned_if negative reach }
{
    if negative {
        Reach {
            below: reach.above,
            above: reach.below,
        }
    } else {
        reach
    }
}

// How far the product of two inputs goes, or of one with itself.
fn times_reach(sop: &Sop, times: Times) -> Reach
    requires sop { IsSop sop.now }
    requires times { IsTimes (length sop.now.inputs) times }
    ensures value { result ≡ times_reach sop.now times }
    ensures below { result.below ≤ 2 ^ 96 }
    ensures above { result.above ≤ 2 ^ 96 }
{
    let a = format_of(sop, times.a);
    if times.a == times.b {
        square_reach(a)
    } else {
        reach_of_product(a, format_of(sop, times.b))
    }
}

fn times_term(sop: &Sop, times: Times) -> Term
    requires sop { IsSop sop.now }
    requires times { IsTimes (length sop.now.inputs) times }
    ensures { result ≡ plain (times_term sop.now times) }
{
    let a = format_of(sop, times.a);
    let b = format_of(sop, times.b);
    let reach = turned(times.negative, times_reach(sop, times));
    Term {
        shift: a.lsb + b.lsb - sop.out_lsb,
        least: over(sop.den, negated(reach.below)),
        most: over(sop.den, positive(reach.above)),
        size: size_with(sop.den, size_of(a) * size_of(b)),
        factor: sop.den,
    }
}

fn offset_term(sop: &Sop) -> Term
    requires { IsSop sop.now }
    ensures { result ≡ plain (offset_term sop.now) }
{
    let offset = i128::from(sop.offset);
    Term {
        shift: -sop.out_lsb,
        least: offset,
        most: offset,
        size: u128::from(sop.offset.unsigned_abs()),
        factor: sop.offset,
    }
}

/// The number of terms. An offset of 0 is no term.
pub(crate) fn count(sop: &Sop) -> usize
    requires { IsSop sop.now }
    ensures value { result ≡ length (terms_of sop.now) }
    ensures bound { result ≤ 81 }
{
    let inputs = sop.scaled.len() + sop.products.len();
    if sop.offset == 0 { inputs } else { inputs + 1 }
}

/// The term at a place: the inputs times constants come first, then the products, and the offset last.
pub(crate) fn term_at(sop: &Sop, place: usize) -> Term
    requires { IsSop sop.now }
    ensures { result ≡ plain (term_at sop.now place) }
{
    let first = sop.scaled.len();
    if place < first {
        scaled_term(sop, *sop.scaled.get(place))
    } else if place - first < sop.products.len() {
        times_term(sop, *sop.products.get(place - first))
    } else {
        offset_term(sop)
    }
}

// The number of an input in the last cycle.
fn last(sop: &Sop, input: u32, history: &[u128]) -> i128
    requires sop { IsSop sop.now }
    requires input { input < length sop.now.inputs }
    requires history { IsHistory sop.now.inputs history.now }
    ensures value { result ≡ last_numbers sop.now history.now input }
    ensures of { IsOf (format_of sop.now input) result }
    ensures bound { unsigned_abs result ≤ 2 ^ 48 }
{
    let format = format_of(sop, input);
    let first = history.len() - sop.inputs.len();
    number_of(format, history[first + input as usize])
}

fn scaled_number(sop: &Sop, scaled: Scaled, history: &[u128]) -> i128
    requires sop { IsSop sop.now }
    requires scaled { IsScaled (length sop.now.inputs) scaled }
    requires history { IsHistory sop.now.inputs history.now }
    ensures { result ≡ (scaled_term sop.now scaled).number (last_numbers sop.now history.now) }
{
    product(last(sop, scaled.input, history), scaled.coefficient)
}

// A number, or its opposite.
fn signed(negative: bool, number: i128) -> i128
    requires { unsigned_abs number ≤ 2 ^ 96 }
    ensures value { result ≡ signed_if negative number }
    ensures bound { unsigned_abs result ≤ 2 ^ 96 }
{
    if negative { -number } else { number }
}

fn times_number(sop: &Sop, times: Times, history: &[u128]) -> i128
    requires sop { IsSop sop.now }
    requires times { IsTimes (length sop.now.inputs) times }
    requires history { IsHistory sop.now.inputs history.now }
    ensures { result ≡ (times_term sop.now times).number (last_numbers sop.now history.now) }
{
    let product = last(sop, times.a, history) * last(sop, times.b, history);
    over(sop.den, signed(times.negative, product))
}

/// The number of the term at a place in the last cycle.
pub(crate) fn number(sop: &Sop, place: usize, history: &[u128]) -> i128
    requires sop { IsSop sop.now }
    requires history { IsHistory sop.now.inputs history.now }
    ensures { result ≡ (term_at sop.now place).number (last_numbers sop.now history.now) }
{
    let first = sop.scaled.len();
    if place < first {
        scaled_number(sop, *sop.scaled.get(place), history)
    } else if place - first < sop.products.len() {
        times_number(sop, *sop.products.get(place - first), history)
    } else {
        i128::from(sop.offset)
    }
}

/// The greatest number of places that a shift goes below 0.
pub(crate) fn depth(sop: &Sop) -> u32
    requires sop { IsSop sop.now }
    requires shift { HasSmallShift sop.now }
    ensures value { result ≡ depth sop.now }
    ensures bound { result ≤ 48 }
{
    let mut depth: u32 = 0;
    'terms: for place in 0..count(sop) {
        depth = depth.max(places_down(term_at(sop, place).shift));
    }
    depth
}

/// The number of places from the lowest place of all terms up to that of one term.
pub(crate) fn height(sop: &Sop, place: usize, below: u32) -> u32
    requires sop { IsSop sop.now }
    requires shift { HasSmallShift sop.now }
    requires place { place < length (terms_of sop.now) }
    requires below { below ≡ depth sop.now }
    ensures value { result ≡ height sop.now (term_at sop.now place) }
    ensures bound { result ≤ 96 }
{
    places_up(term_at(sop, place).shift + below as i32)
}

// The number of binary digits.
fn digit_count(number: u128) -> u32
    ensures value { result ≡ digit_count number }
    ensures bound { result ≤ 128 }
{
    bit_length(number)
}

/// A bound on the bits of the sum of all terms, in units of the lowest place.
pub(crate) fn total_bits(sop: &Sop, below: u32) -> u32
    requires sop { IsSop sop.now }
    requires shift { HasSmallShift sop.now }
    requires below { below ≡ depth sop.now }
    ensures { result ≡ total_bits sop.now }
{
    let mut bits: u32 = 0;
    'terms: for place in 0..count(sop) {
        let size = term_at(sop, place).size;
        bits = bits.max(digit_count(size) + height(sop, place, below));
    }
    bits + digit_count(count(sop) as u128)
}
