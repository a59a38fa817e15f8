//! Tests whether values are within the ranges that keys of several kinds have.
ghost use Rattle.std.specs.Prelude.{◌≡◌, ◌≤◌, ◌≤ℤ◌, ◌↔◌, ◌^◌, pos, All, IsTrue};
ghost use Rattle.opgen_num.specs.Formats.{fewest_bits};
ghost use Rattle.opgen_ports.specs.Ranges.{IsPower, IsNear, IsInput, IsWithin, AreNear};

use opgen_num::{Format, MAX_DENOMINATOR, MAX_INPUT, MAX_LSB, MAX_NEAR_LSB};

/// Whether a lowest bit may have this power: -64 to 64.
pub fn is_power(lsb: i32) -> bool
    ensures { IsTrue result ↔ IsPower lsb }
{
    -MAX_LSB <= lsb && lsb <= MAX_LSB
}

/// Whether a lowest bit may have this power in the kinds and versions that have fewer: -32 to 32.
pub fn is_near(lsb: i32) -> bool
    ensures { IsTrue result ↔ IsNear lsb }
{
    -MAX_NEAR_LSB <= lsb && lsb <= MAX_NEAR_LSB
}

/// Whether a version has these lowest bits: versions 1 and 2 have those from -32 to 32 alone.
pub fn are_near(version: u32, lsbs: &[i32]) -> bool
    ensures { IsTrue result ↔ AreNear version lsbs.now }
{
    if version >= 3 {
        return true;
    }
    'lsbs: for lsb in lsbs {
        if !is_near(*lsb) {
            return false;
        }
    }
    true
}

fn fewest_bits(signed: bool) -> u32
    ensures { result ≡ fewest_bits signed }
{
    if signed { 2 } else { 1 }
}

/// Whether an input may have the format in some version of specifications.
pub fn is_input(format: Format) -> bool
    ensures { IsTrue result ↔ IsInput format }
{
    fewest_bits(format.signed) <= format.width && format.width <= MAX_INPUT && is_power(format.lsb)
}

/// Whether a length is within its range.
pub fn is_length(least: usize, most: usize, length: usize) -> bool
    ensures { IsTrue result ↔ ((least ≤ length) × (length ≤ most)) }
{
    least <= length && length <= most
}

/// Whether a number can be a common denominator: 1 to 2^30.
pub fn is_denominator(den: i64) -> bool
    ensures { IsTrue result ↔ ((pos 1 ≤ℤ den) × (den ≤ℤ MAX_DENOMINATOR)) }
{
    1 <= den && den <= MAX_DENOMINATOR
}

/// Whether each number is at most so far from 0.
pub fn are_within(limit: u64, numbers: &[i64]) -> bool
    ensures { IsTrue result ↔ All (IsWithin limit) numbers.now }
{
    'numbers: for number in numbers {
        if number.unsigned_abs() > limit {
            return false;
        }
    }
    true
}
