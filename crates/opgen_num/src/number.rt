//! The bit length of a number, and powers of two.
ghost use Rattle.std.specs.Prelude.{ℕ, ◌<◌, ◌≤◌, ◌^◌, ◌≡◌, pos, ◌≤ℤ◌};
ghost use Rattle.opgen_num.specs.declared.format.TheConstants.{MAX_WIDTH};

/// The number of binary digits of a whole number, none for 0.
pub fn bit_length(n: u128) -> u32
    ensures holds { n < 2 ^ result }
    ensures least { (digits : ℕ) → n < 2 ^ digits → result ≤ digits }
{
    128 - n.leading_zeros()
}

/// Two to a power.
pub fn power(places: u32) -> u128
    requires { places < 128 }
    ensures value { result ≡ 2 ^ places }
    ensures some { 0 < result }
{
    1 << places
}

/// Two to a power, as a number that may be subtracted.
pub fn signed_power(places: u32) -> i128
    requires { places ≤ MAX_WIDTH }
    ensures value { result ≡ pos (2 ^ places) }
    ensures some { pos 0 ≤ℤ result }
    ensures few { result ≤ℤ pos (2 ^ MAX_WIDTH) }
{
    power(places) as i128
}
