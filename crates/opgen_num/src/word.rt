//! Words of bits: a number and a width.
ghost use Rattle.std.specs.Prelude.{◌≡◌, ◌<◌, ◌^◌, length};
ghost use Rattle.opgen_num.specs.Words.{nat, word};

use std::marker::Model;

/// A word of bits. Contracts see it as the list of its bits, the lowest first.
///
/// `bits` is the number that the bits stand for, below 2 to `width`.
#[derive(Clone, Copy, Debug)]
pub struct Word {
    pub bits: u128,
    pub width: u32,
}

impl Model for Word {
    ghost use Rattle.std.specs.Prelude.{refl, Bool, List, length, ◌<◌, ◌^◌};
    ghost use Rattle.opgen_num.specs.Words.{nat, word};
    ghost use Rattle.opgen_num.specs.WordLaws.{nat-word, length-word};

    ghost Value = { List Bool };

    ghost view = { λ w. word w.width w.bits };

    ghost invariant = { λ w. w.bits < 2 ^ w.width };

    ghost inverse = { λ b. record { bits = nat b; width = length b } };

    ghost inverse_ok = { λ a h. Prim.rw (nat-word a.width a.bits h, length-word a.width a.bits) refl };
}

impl Word {
    /// The word of this width that stands for a number.
    pub fn new(bits: u128, width: u32) -> Word
        requires { bits < 2 ^ width }
        ensures { result ≡ word width bits }
    {
        Word { bits, width }
    }

    /// The number that the bits stand for.
    pub fn bits(self) -> u128
        ensures { result ≡ nat self }
    {
        self.bits
    }

    /// The number of bits.
    pub fn width(self) -> u32
        ensures { result ≡ length self }
    {
        self.width
    }
}
