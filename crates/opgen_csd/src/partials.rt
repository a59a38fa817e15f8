//! The partial sums of the signed digits of a number: the multiples that a chain of adders makes on the way to it.
ghost use Rattle.std.specs.Prelude.{◌≡◌, ◌%◌, unsigned_abs};
ghost use Rattle.opgen_csd.specs.Partials as spec;
ghost use Rattle.opgen_csd.specs.Digits.{value_of};

use crate::digits::{Digits, weighted};
use std::marker::Model;

/// The absolute sums of the lowest two, three and more nonzero digits. Contracts see them as a list.
///
/// The sums are the first `len`, and zeros stand above them.
#[derive(Debug, Drop)]
pub struct Partials {
    pub sums: [u64; 32],
    pub len: u32,
}

impl Model for Partials {
    ghost use Rattle.std.specs.Prelude.{ℕ, List, take};
    ghost use Rattle.opgen_csd.specs.Partials.{IsFilled};

    ghost Value = { List ℕ };

    ghost view = { λ p. take p.len p.sums };

    ghost invariant = { λ p. IsFilled p.sums p.len };
}

impl Partials {
    pub fn as_slice(&self) -> &[u64]
        ensures { result.now ≡ self.now }
    {
        &self.sums[..self.len as usize]
    }
}

impl Digits {
    /// The partial sums of an odd number. The last of those of a number above 1 is the number.
    pub fn partials(&self) -> Partials
        requires { unsigned_abs (value_of self.now) % 2 ≡ 1 }
        ensures { result ≡ spec.partials self.now }
    {
        let mut sums = [0; 32];
        let mut len: u32 = 0;
        let mut sum = i64::from(self.digits[0]);
        for place in 1..self.len {
            let digit = self.digits[place as usize];
            sum += weighted(digit, place);
            if digit != 0 {
                sums[len as usize] = sum.unsigned_abs();
                len += 1;
            }
        }
        Partials { sums, len }
    }
}
