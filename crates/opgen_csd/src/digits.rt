//! Recodes a number to its canonical signed digits (-1, 0 and 1, no two neighbours nonzero), and reads the number back.
ghost use Rattle.std.specs.Prelude.{◌≡◌, ◌≢◌, ◌<◌, ◌≤◌, ◌^◌, ℤ, pos, ◌+ℤ◌, ◌*ℤ◌, unsigned_abs};
ghost use Rattle.opgen_csd.specs.Digits.{IsDigit, IsCanonical, value_of, nonzeros};

use std::marker::Model;

/// The canonical form of a number. Contracts see it as the list of its digits, the lowest first.
///
/// The digits are the first `len`, and zeros stand above them. The number is between -2^62 and 2^62.
#[derive(Debug, Drop)]
pub struct Digits {
    pub digits: [i8; 64],
    pub len: u32,
}

impl Model for Digits {
    ghost use Rattle.std.specs.Prelude.{ℤ, List, take};
    ghost use Rattle.opgen_csd.specs.Digits.{IsRecoded};

    ghost Value = { List ℤ };

    ghost view = { λ d. take d.len d.digits };

    ghost invariant = { λ d. IsRecoded d.digits d.len };
}

// The lowest digit: 0 of an even number, and of an odd one the digit that leaves a multiple of 4.
fn lowest_digit(n: i64) -> i8
    ensures digit { IsDigit result }
    ensures odd { result ≢ pos 0 → (x : ℤ) × (n ≡ result +ℤ ((x +ℤ x) +ℤ (x +ℤ x))) }
    ensures even { result ≡ pos 0 → (x : ℤ) × (n ≡ x +ℤ x) }
{
    let low = n.rem_euclid(4);
    if low == 1 {
        return 1;
    }
    if low == 3 {
        return -1;
    }
    0
}

// Half of what is left above the lowest digit.
fn above(n: i64, digit: i8) -> i64
    requires small { unsigned_abs n < 2 ^ 62 }
    requires digit { IsDigit digit }
    requires even { (x : ℤ) × (n ≡ digit +ℤ (x +ℤ x)) }
    ensures { n ≡ digit +ℤ (result +ℤ result) }
{
    (n - i64::from(digit)) / 2
}

/// The canonical form of a number.
pub fn recode(n: i64) -> Digits
    requires { unsigned_abs n < 2 ^ 62 }
    ensures canonical { IsCanonical result }
    ensures value { value_of result ≡ n }
{
    let mut digits = [0; 64];
    let mut len: u32 = 0;
    let mut rest = n;
    while rest != 0 {
        let digit = lowest_digit(rest);
        digits[len as usize] = digit;
        len += 1;
        rest = above(rest, digit);
    }
    Digits { digits, len }
}

// A digit times 2 to its place.
pub(crate) fn weighted(digit: i8, place: u32) -> i64
    requires digit { IsDigit digit }
    requires place { place ≤ 62 }
    ensures { result ≡ digit *ℤ pos (2 ^ place) }
{
    i64::from(digit) * (1 << place)
}

impl Digits {
    /// The number.
    pub fn value(&self) -> i64
        ensures { result ≡ value_of self.now }
    {
        let mut sum = 0;
        for place in 0..self.len {
            sum += weighted(self.digits[place as usize], place);
        }
        sum
    }

    /// The number of digits that are not zero.
    pub fn count(&self) -> u32
        ensures { result ≡ nonzeros self.now }
    {
        let mut count = 0;
        for digit in &self.digits[..self.len as usize] {
            if *digit != 0 {
                count += 1;
            }
        }
        count
    }
}
