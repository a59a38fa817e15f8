//! Whether a number is good for a fraction that may be out of the range of a format: brought into it, or modulo a power of two.
ghost use Rattle.std.specs.Prelude.{◌≡◌, ◌≤◌, ◌↔◌, ◌<ℤ◌, pos, IsTrue};
ghost use Rattle.opgen_num.specs.Formats.{IsWidthOf};
ghost use Rattle.opgen_num.specs.Rounding.{IsGoodLinear};
ghost use Rattle.opgen_ports.specs.Good.{least_of, greatest_of, saturated, IsGoodSaturated, IsGoodWrapped, IsTurned};

use crate::shifts::raised;
use opgen_num::{Format, MAX_WIDTH, Mode, Ratio, good_linear};

// The least number of a format.
fn least_of(to: Format) -> i128
    requires { IsWidthOf to.signed to.width }
    ensures { result ≡ least_of to }
{
    if to.signed {
        -raised(1, to.width - 1)
    } else {
        0
    }
}

// The greatest number of a format.
fn greatest_of(to: Format) -> i128
    requires { IsWidthOf to.signed to.width }
    ensures { result ≡ greatest_of to }
{
    if to.signed {
        raised(1, to.width - 1) - 1
    } else {
        raised(1, to.width) - 1
    }
}

/// Whether `y` is good, in a mode, for a fraction that is first brought into the range of a format.
///
/// No product is formed, so that no value of the arguments is too great.
pub fn good_saturated(value: Ratio, to: Format, y: i128, mode: Mode) -> bool
    requires den { pos 0 <ℤ value.den }
    requires to { IsWidthOf to.signed to.width }
    ensures { IsTrue result ↔ IsGoodSaturated mode to value.num value.den y }
{
    let low = least_of(to);
    let high = greatest_of(to);
    let whole = value.num.div_euclid(value.den);
    if whole < low {
        y == low
    } else if whole >= high {
        y == high
    } else {
        good_linear(value.num, value.den, y, mode)
    }
}

// Whether a number is one of a format.
fn is_held(own: Format, whole: i128) -> bool
    requires { IsWidthOf own.signed own.width }
    ensures { IsTrue result ↔ saturated own whole ≡ whole }
{
    least_of(own) <= whole && whole <= greatest_of(own)
}

// Whether two numbers are the same modulo two to a power.
fn is_turned(power: u32, whole: i128, y: i128) -> bool
    requires { power ≤ MAX_WIDTH }
    ensures { IsTrue result ↔ IsTurned power whole y }
{
    let turn = raised(1, power);
    y.rem_euclid(turn) == whole.rem_euclid(turn)
}

// Whether a number is good for a fraction and one of the first format, and `y` the same modulo two to the power of the width of the
// other one.
fn is_wrapped(value: Ratio, own: Format, to: Format, whole: i128, y: i128, mode: Mode) -> bool
    requires den { pos 0 <ℤ value.den }
    requires own { IsWidthOf own.signed own.width }
    requires to { IsWidthOf to.signed to.width }
    ensures { IsTrue result ↔ (IsGoodLinear value.num value.den whole mode × saturated own whole ≡ whole × IsTurned to.width whole y) }
{
    good_linear(value.num, value.den, whole, mode)
        && is_held(own, whole)
        && is_turned(to.width, whole, y)
}

/// Whether `y` is, modulo two to the power of the width of a format, a number of the output's own format that is good, in a mode, for a
/// fraction.
pub fn good_wrapped(value: Ratio, own: Format, to: Format, y: i128, mode: Mode) -> bool
    requires den { pos 0 <ℤ value.den }
    requires own { IsWidthOf own.signed own.width }
    requires to { IsWidthOf to.signed to.width }
    ensures { IsTrue result ↔ IsGoodWrapped mode own to value.num value.den y }
{
    let floor = value.num.div_euclid(value.den);
    is_wrapped(value, own, to, floor, y, mode)
        || (floor < greatest_of(own) && is_wrapped(value, own, to, floor + 1, y, mode))
}
