//! A shift as factors of a fraction: up of the numerator, down of the denominator.
ghost use Rattle.std.specs.Prelude.{◌≡◌, ◌*◌, ◌≤◌, ◌^◌, ℤ, ◌≤ℤ◌, ◌<◌, pos, ◌*ℤ◌, unsigned_abs};
ghost use Rattle.opgen_ports.specs.Ranges.{IsWithin};
ghost use Rattle.opgen_ports.specs.Reaches.{places_up, places_down, up, down, is_whole_at};

use opgen_num::{MAX_DENOMINATOR, MAX_NUMERATOR, MAX_WIDTH, power};

/// By how many places a shift moves up, 0 if it moves down.
pub fn places_up(shift: i32) -> u32
    ensures { result ≡ places_up shift }
{
    if shift < 0 { 0 } else { shift.unsigned_abs() }
}

/// By how many places a shift moves down, 0 if it moves up.
pub fn places_down(shift: i32) -> u32
    ensures { result ≡ places_down shift }
{
    if shift < 0 { shift.unsigned_abs() } else { 0 }
}

/// A number times two to a power.
pub fn raised(n: i128, places: u32) -> i128
    requires small { unsigned_abs n * 2 ^ places ≤ 2 ^ 126 }
    requires few { places ≤ MAX_WIDTH }
    ensures value { result ≡ n *ℤ pos (2 ^ places) }
{
    n * (power(places) as i128)
}

/// The numerator in units of the output's last place, over `units`.
pub fn scaled(numerator: u128, shift: i32) -> u128
    requires small { numerator * up shift ≤ 2 ^ 120 }
    requires few { places_up shift ≤ MAX_WIDTH }
    ensures { result ≡ numerator * up shift }
{
    numerator * power(places_up(shift))
}

/// The denominator in units of the output's last place.
pub fn units(den: i64, shift: i32) -> u128
    requires positive { pos 1 ≤ℤ den }
    requires small { den ≤ℤ MAX_DENOMINATOR }
    requires few { places_down shift ≤ 64 }
    ensures value { result ≡ unsigned_abs den * down shift }
    ensures positive { 0 < result }
{
    u128::from(den.unsigned_abs()) * power(places_down(shift))
}

/// Whether a coefficient over a denominator is a whole number of units of the output's last place. A
/// shift may be beyond the limits of its kind.
pub fn is_whole(coef: i64, den: i64, shift: i32) -> bool
    requires coef { IsWithin MAX_NUMERATOR coef }
    requires positive { pos 1 ≤ℤ den }
    requires small { den ≤ℤ MAX_DENOMINATOR }
    ensures { result ≡ is_whole_at den shift coef }
{
    let near = shift.max(-31).min(30);
    scaled(coef.unsigned_abs().into(), near) % units(den, near) == 0
}
