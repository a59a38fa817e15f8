//! Rounds a fraction to the nearest whole number, and tests whether a number is a good rounding of a fraction, quotient or square
//! root, without products that could overflow.
ghost use Rattle.std.specs.Prelude.{◌≡◌, true, false, ◌↔◌, IsTrue, ◌+◌, ◌*◌, ◌<◌, ◌^◌, pos, ◌<ℤ◌, ◌≤ℤ◌, ◌*ℤ◌, ◌+ℤ◌, ◌-ℤ◌, unsigned_abs};
ghost use Rattle.opgen_num.specs.Floors.{IsFloor};
ghost use Rattle.opgen_num.specs.Rounding.{nearest, IsExact, IsGoodLinear, IsGoodRoot, IsNearest, IsQuotient, IsRoot, IsWithinOne};

use crate::mode::Mode;

/// The whole number that is nearest to `n / m`, the greater of two.
pub fn nearest(n: i128, m: i128) -> i128
    requires positive { pos 0 <ℤ m }
    requires small { 2 * unsigned_abs n + unsigned_abs m < 2 ^ 126 }
    ensures value { result ≡ nearest n m }
    ensures small { unsigned_abs result < 2 ^ 126 }
{
    (2 * n + m).div_euclid(2 * m)
}

/// Whether `y` is good for `n / m` in a mode: equal to it, less than one away from it, its floor, or the
/// floor of half a unit more.
///
/// No product is formed, so that no value of the arguments is too great.
pub fn good_linear(n: i128, m: i128, y: i128, mode: Mode) -> bool
    requires { pos 0 <ℤ m }
    ensures { IsTrue result ↔ IsGoodLinear n m y mode }
{
    match mode {
        Mode::Exact => is_exact(n, m, y),
        Mode::Faithful => is_within_one(n, m, y),
        Mode::Down => is_floor(n, m, y),
        Mode::Nearest => is_nearest(n, m, y),
    }
}

/// Whether `y` is less than one away from the square root of `n`.
pub fn good_root(n: u128, y: u128) -> bool
    ensures { IsTrue result ↔ IsGoodRoot n y }
{
    let root = n.isqrt();
    y == root || (y == root + 1 && root * root < n)
}

/// Whether `q` is the quotient of `n` by `b` rounded down, and `r` the remainder. Nothing is where `b` is 0.
pub fn is_quotient(n: u128, b: u128, q: u128, r: u128) -> bool
    ensures { IsTrue result ↔ IsQuotient n b q r }
{
    if b == 0 {
        return false;
    }
    q == n / b && r == n % b
}

/// Whether `y` is the square root of `n` rounded down, and `r` the remainder.
pub fn is_root(n: u128, y: u128, r: u128) -> bool
    ensures { IsTrue result ↔ IsRoot n y r }
{
    let root = n.isqrt();
    y == root && r == n - root * root
}

fn is_exact(n: i128, m: i128, y: i128) -> bool
    requires { pos 0 <ℤ m }
    ensures { IsTrue result ↔ IsExact n m y }
{
    let (quotient, rest) = quotient(n, m);
    rest == 0 && y == quotient
}

fn is_within_one(n: i128, m: i128, y: i128) -> bool
    requires { pos 0 <ℤ m }
    ensures { IsTrue result ↔ IsWithinOne n m y }
{
    let (quotient, rest) = quotient(n, m);
    y == quotient || (rest > 0 && y == quotient + 1)
}

fn is_floor(n: i128, m: i128, y: i128) -> bool
    requires { pos 0 <ℤ m }
    ensures { IsTrue result ↔ IsFloor n m y }
{
    let (quotient, _rest) = quotient(n, m);
    y == quotient
}

fn is_nearest(n: i128, m: i128, y: i128) -> bool
    requires { pos 0 <ℤ m }
    ensures { IsTrue result ↔ IsNearest n m y }
{
    let (quotient, rest) = quotient(n, m);
    if is_half(rest, m) {
        y == quotient + 1
    } else {
        y == quotient
    }
}

// Whether the rest of a division by `m` is half of it or more.
fn is_half(rest: i128, m: i128) -> bool
    requires low { pos 0 ≤ℤ rest }
    requires high { rest <ℤ m }
    ensures half { result ≡ true → (m -ℤ rest) ≤ℤ rest }
    ensures less { result ≡ false → rest <ℤ (m -ℤ rest) }
{
    m - rest <= rest
}

// The greatest whole number that is not above `n / m`, and the rest.
fn quotient(n: i128, m: i128) -> (i128, i128)
    requires { pos 0 <ℤ m }
    ensures whole { ((result.0 *ℤ m) +ℤ result.1) ≡ n }
    ensures low { pos 0 ≤ℤ result.1 }
    ensures high { result.1 <ℤ m }
{
    (n.div_euclid(m), n.rem_euclid(m))
}
