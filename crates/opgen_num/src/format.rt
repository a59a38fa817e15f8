//! Fixed-point formats (sign, width, weight of the lowest bit), the number that a word stands for, and the least format for a
//! range.
ghost use Rattle.std.specs.Prelude.{◌≡◌, ℕ, ◌≤◌, length, ◌↔◌, pos, negsuc, ◌<ℤ◌, ◌≤ℤ◌, IfOk, IfSome, IfNone};
ghost use Rattle.opgen_num.specs.Formats.{IsWidthOf, IsLsb, is_negative, range_width, IsLeastWidth, IsTooWide, Holds};
ghost use Rattle.opgen_num.specs.Words.{int, val, nat};

use crate::{Word, bit_length};

/// The greatest width of a signal, in bits.
pub const MAX_WIDTH: u32 = 96;

/// The greatest width of an input of an operator, in bits.
pub const MAX_INPUT: u32 = 48;

/// The greatest weight of a lowest bit is 2 to this power, the least 2 to its negative.
pub const MAX_LSB: i32 = 64;

/// How a port's word is read: as an unsigned or a two's complement number, times 2 to `lsb`.
#[derive(Clone, Copy, Debug, PartialEq, Eq)]
pub struct Format {
    pub signed: bool,
    /// The number of bits.
    pub width: u32,
    /// The weight of the lowest bit is 2 to this power.
    pub lsb: i32,
}

/// Why there is no format of these numbers.
#[derive(Clone, Copy, Debug, PartialEq, Eq)]
pub enum FormatFault {
    Width,
    Lsb,
}

/// A fraction of whole numbers.
#[derive(Clone, Copy, Debug, PartialEq, Eq)]
pub struct Ratio {
    pub num: i128,
    pub den: i128,
}

impl Format {
    /// The format of a sign, a width in bits and a weight of the lowest bit.
    ///
    /// `Width` comes before `Lsb` where both are out of range.
    pub fn new(signed: bool, width: u32, lsb: i32) -> Result<Format, FormatFault>
        ensures ok { IfOk result (λ f. f ≡ record { signed = signed; width = width; lsb = lsb }) }
        ensures fits { IfOk result (λ f. IsWidthOf signed width × IsLsb lsb) }
        ensures width { result ≡ Err FormatFault.Width ↔ (¬ IsWidthOf signed width) }
        ensures lsb { result ≡ Err FormatFault.Lsb ↔ (IsWidthOf signed width × (¬ IsLsb lsb)) }
    {
        let fewest = if signed { 2 } else { 1 };
        if width < fewest || width > MAX_WIDTH {
            return Err(FormatFault::Width);
        }
        if lsb < -MAX_LSB || lsb > MAX_LSB {
            return Err(FormatFault::Lsb);
        }
        Ok(Format { signed, width, lsb })
    }

    /// The number that a word stands for, in units of its lowest bit.
    pub fn value(self, word: Word) -> i128
        requires least { 1 ≤ length word }
        requires most { length word ≤ MAX_WIDTH }
        ensures value { result ≡ val word self }
        ensures range { Holds self.signed (length word) result }
    {
        if self.signed {
            signed_value(word)
        } else {
            unsigned_value(word)
        }
    }
}

fn unsigned_value(word: Word) -> i128
    requires { length word ≤ MAX_WIDTH }
    ensures { result ≡ pos (nat word) }
{
    word.bits() as i128
}

// The number of a word in two's complement.
fn signed_value(word: Word) -> i128
    requires { length word ≤ MAX_WIDTH }
    ensures { result ≡ int word }
{
    let power: i128 = 1 << word.width();
    let bits = word.bits() as i128;
    if bits + bits < power {
        bits
    } else {
        bits - power
    }
}

/// The format of least width that holds all whole numbers from `lo` to `hi`, where a signal can be so wide.
///
/// It is signed exactly where `lo` is below zero.
pub fn cover(lo: i128, hi: i128, lsb: i32) -> Option<Format>
    requires order { lo ≤ℤ hi }
    requires lsb { IsLsb lsb }
    ensures some { IfSome result (λ f. f ≡ record { signed = is_negative lo; width = range_width lo hi; lsb = lsb }) }
    ensures width { IfSome result (λ f. IsLeastWidth lo hi f.width × (f.width ≤ MAX_WIDTH)) }
    ensures none { IfNone result (IsTooWide lo hi) }
{
    let width = least_width(lo, hi);
    if width > MAX_WIDTH {
        return None;
    }
    Some(Format {
        signed: lo < 0,
        width,
        lsb,
    })
}

/// The least width that holds all whole numbers from `lo` to `hi`, in two's complement where `lo` is below zero.
///
/// It may exceed the width of any signal.
pub fn least_width(lo: i128, hi: i128) -> u32
    requires { lo ≤ℤ hi }
    ensures least { IsLeastWidth lo hi result }
    ensures value { result ≡ range_width lo hi }
{
    if lo < 0 {
        (bit_length(magnitude(lo, hi)) + 1).max(2)
    } else {
        bit_length(hi.unsigned_abs()).max(1)
    }
}

// The least n that is so great that all numbers from `lo` to `hi` lie from -n - 1 to n.
fn magnitude(lo: i128, hi: i128) -> u128
    requires negative { lo <ℤ pos 0 }
    requires order { lo ≤ℤ hi }
    ensures low { negsuc result ≤ℤ lo }
    ensures high { hi ≤ℤ pos result }
    ensures least { (n : ℕ) → negsuc n ≤ℤ lo → hi ≤ℤ pos n → result ≤ n }
{
    (!lo).max(hi).unsigned_abs()
}
