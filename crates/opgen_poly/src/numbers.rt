//! The numbers of one step of Horner's rule: the columns that are left out, the width of the heap, and the added constant.
ghost use Rattle.std.specs.Prelude.{◌≡◌, ◌≤◌, ◌<◌, ◌+◌, ◌^◌, pos, ◌*ℤ◌, ◌≤ℤ◌, length, unsigned_abs};
ghost use Rattle.opgen_kinds.specs.Poly.{IsPoly};
ghost use Rattle.opgen_poly.specs.Recipe.{left_out as left_out_of, heap_width as heap_width_of, kept_part as kept_part_of, added as added_of, pairs as pairs_of, rounding as rounding_of, last_word as last_word_of};

use opgen_budget::drop_columns;
use opgen_num::{Word, signed_power};
use opgen_operator::Poly;
use opgen_partial::{Factor, Products, sign_correction};

/// How many of the lowest columns of a product of `m` by `width` bits are left out: as many as weigh at most half a unit of the
/// lowest bit that is kept.
pub fn left_out(m: u32, width: u32) -> u32
    requires m { (1 ≤ m) × (m ≤ 64) }
    requires width { (1 ≤ width) × (width ≤ 64) }
    ensures { result ≡ left_out_of m width }
{
    drop_columns(m, width, width).columns
}

/// The partial value of the coefficients after `place`, which is the node `node`, and the input.
pub fn pairs(poly: &Poly, place: usize, node: usize) -> Products
    requires poly { IsPoly poly.now }
    requires place { place + 1 < length poly.now.coefs }
    ensures { result ≡ pairs_of poly.now place node }
{
    let width = poly.partial_width(place + 1);
    Products {
        a: Factor {
            node,
            width,
            signed: true,
        },
        b: Factor {
            node: 0,
            width: poly.input.width,
            signed: false,
        },
        left_out: left_out(width, poly.input.width),
    }
}

/// The width of the heap of a step: the bits that are kept, and those that are cut off.
pub fn heap_width(poly: &Poly, place: usize) -> u32
    requires poly { IsPoly poly.now }
    requires place { place + 1 < length poly.now.coefs }
    ensures value { result ≡ heap_width_of poly.now place }
    ensures some { 1 ≤ result }
    ensures few { result ≤ 70 }
{
    if place == 0 {
        return poly.input.width + poly.guard_bits() + poly.output().width;
    }
    poly.input.width + poly.partial_width(place)
}

// Half a unit of the output's last place, where the output is cut.
fn rounding(poly: &Poly, place: usize) -> i128
    requires poly { IsPoly poly.now }
    ensures value { result ≡ pos (rounding_of poly.now place) }
    ensures some { pos 0 ≤ℤ result }
    ensures few { result ≤ℤ pos (2 ^ 70) }
{
    if place == 0 {
        signed_power(poly.input.width + poly.guard_bits() - 1)
    } else {
        0
    }
}

// A coefficient above the bits that are cut off.
fn shifted(coefficient: i128, width: u32) -> i128
    requires coefficient { unsigned_abs coefficient ≤ 2 ^ 50 }
    requires width { width ≤ 16 }
    ensures value { result ≡ coefficient *ℤ pos (2 ^ width) }
    ensures small { unsigned_abs result ≤ 2 ^ 66 }
{
    coefficient * signed_power(width)
}

// Half a unit of the lowest bit that a step keeps, the coefficient above the bits that are cut off, and what rounds the output.
fn kept_part(poly: &Poly, place: usize) -> i128
    requires poly { IsPoly poly.now }
    requires place { place + 1 < length poly.now.coefs }
    ensures value { result ≡ kept_part_of poly.now place }
    ensures small { unsigned_abs result ≤ 2 ^ 72 }
{
    let width = poly.input.width;
    let half = signed_power(width - 1);
    let coefficient = shifted(poly.guarded(place), width);
    half + coefficient + rounding(poly, place)
}

/// What is added to the products of a step: the correction for the sign, and what is kept.
pub fn added(poly: &Poly, place: usize, products: &Products) -> i128
    requires poly { IsPoly poly.now }
    requires place { place + 1 < length poly.now.coefs }
    requires products { products.now ≡ pairs_of poly.now place products.now.a.node }
    ensures { result ≡ added_of poly.now place }
{
    sign_correction(products.a, products.b) + kept_part(poly, place)
}

/// The last coefficient as a word.
pub fn last_word(poly: &Poly) -> Word
    requires { IsPoly poly.now }
    ensures { result ≡ last_word_of poly.now }
{
    let place = poly.coefs.len() - 1;
    let width = poly.partial_width(place);
    let number = poly.guarded(place).rem_euclid(signed_power(width));
    Word::new(number.unsigned_abs(), width)
}
