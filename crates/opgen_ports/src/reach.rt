//! How far numbers go below and above 0: of inputs, of sums, and in units of the output's last place; the width for them.
ghost use Rattle.std.specs.Prelude.{◌≡◌, ◌+◌, ◌*◌, ◌≤◌, ◌^◌, ℤ, neg_ℤ, ◌≤ℤ◌, pos, length, All};
ghost use Rattle.opgen_num.specs.declared.limits.TheConstants.{MAX_DENOMINATOR, MAX_NUMERATOR, MAX_TAPS};
ghost use Rattle.opgen_ports.specs.Ranges.{IsInput, IsWithin};
ghost use Rattle.opgen_ports.specs.Reaches.{reach_of, rises, falls, reach_over, reach_of_product, in_units, in_places, width_of, up};

use crate::MAX_SHIFT;
use crate::shifts::{scaled, units};
use opgen_num::{Format, least_width, power};

/// How far numbers go below and above 0.
#[derive(Clone, Copy, Debug, PartialEq, Eq)]
pub struct Reach {
    pub below: u128,
    pub above: u128,
}

/// How far the numbers of an input go.
pub fn reach_of(format: Format) -> Reach
    requires { IsInput format }
    ensures value { result ≡ reach_of format }
    ensures below { result.below ≤ 2 ^ format.width }
    ensures above { result.above ≤ 2 ^ format.width }
{
    if format.signed {
        let half = power(format.width - 1);
        Reach {
            below: half,
            above: half - 1,
        }
    } else {
        Reach {
            below: 0,
            above: power(format.width) - 1,
        }
    }
}

// The sum of the coefficients below 0, without its sign, and of those above 0.
fn sides(coefs: &[i64]) -> Reach
    requires few { length coefs.now ≤ MAX_TAPS }
    requires small { All (IsWithin MAX_NUMERATOR) coefs.now }
    ensures falls { result.below ≡ falls coefs.now }
    ensures rises { result.above ≡ rises coefs.now }
    ensures below { result.below ≤ 2 ^ 38 }
    ensures above { result.above ≤ 2 ^ 38 }
{
    let mut below = 0;
    let mut above = 0;
    'coefs: for coef in coefs {
        let size = u128::from(coef.unsigned_abs());
        if *coef < 0 {
            below += size;
        } else {
            above += size;
        }
    }
    Reach { below, above }
}

/// How far a sum of inputs times coefficients goes.
pub fn reach_over(input: Format, coefs: &[i64]) -> Reach
    requires input { IsInput input }
    requires few { length coefs.now ≤ MAX_TAPS }
    requires small { All (IsWithin MAX_NUMERATOR) coefs.now }
    ensures value { result ≡ reach_over input coefs.now }
    ensures below { result.below ≤ 2 ^ (input.width + 39) }
    ensures above { result.above ≤ 2 ^ (input.width + 39) }
{
    let input = reach_of(input);
    let coefs = sides(coefs);
    Reach {
        below: coefs.above * input.below + coefs.below * input.above,
        above: coefs.above * input.above + coefs.below * input.below,
    }
}

/// How far the products of the numbers of two formats go.
pub fn reach_of_product(a: Format, b: Format) -> Reach
    requires a { IsInput a }
    requires b { IsInput b }
    ensures value { result ≡ reach_of_product a b }
    ensures below { result.below ≤ 2 ^ (a.width + b.width) }
    ensures above { result.above ≤ 2 ^ (a.width + b.width) }
{
    let a = reach_of(a);
    let b = reach_of(b);
    Reach {
        below: (a.below * b.above).max(a.above * b.below),
        above: (a.above * b.above).max(a.below * b.below),
    }
}

// In units of the output's last place, rounded away from 0.
fn in_units(numerator: u128, shift: i32, den: i64) -> u128
    requires numerator { numerator * up shift ≤ 2 ^ 119 }
    requires low { neg_ℤ MAX_SHIFT ≤ℤ shift }
    requires high { shift ≤ℤ MAX_SHIFT }
    requires positive { pos 1 ≤ℤ den }
    requires small { den ≤ℤ MAX_DENOMINATOR }
    ensures value { result ≡ in_units numerator shift den }
    ensures bound { result ≤ 2 ^ 120 }
{
    scaled(numerator, shift).div_ceil(units(den, shift))
}

/// How far fractions go, in units of the output's last place, rounded away from 0.
pub fn in_places(reach: Reach, shift: i32, den: i64) -> Reach
    requires below { reach.below * up shift ≤ 2 ^ 119 }
    requires above { reach.above * up shift ≤ 2 ^ 119 }
    requires low { neg_ℤ MAX_SHIFT ≤ℤ shift }
    requires high { shift ≤ℤ MAX_SHIFT }
    requires positive { pos 1 ≤ℤ den }
    requires small { den ≤ℤ MAX_DENOMINATOR }
    ensures value { result ≡ in_places reach shift den }
    ensures below { result.below ≤ 2 ^ 120 }
    ensures above { result.above ≤ 2 ^ 120 }
{
    Reach {
        below: in_units(reach.below, shift, den),
        above: in_units(reach.above, shift, den),
    }
}

/// The least width that holds numbers so far below and above 0.
pub fn width_of(reach: Reach) -> u32
    requires below { reach.below ≤ 2 ^ 120 }
    requires above { reach.above ≤ 2 ^ 120 }
    ensures value { result ≡ width_of reach }
    ensures bound { result ≤ 130 }
{
    least_width(-(reach.below as i128), reach.above as i128)
}
