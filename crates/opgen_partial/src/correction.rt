//! The constant that corrects partial products of signed factors, whose bits of negative weight were inverted.
ghost use Rattle.std.specs.Prelude.{◌≡◌, ◌≤◌, ◌+◌, ◌-◌, ◌*◌, ◌^◌, pos, neg_ℤ, ◌≤ℤ◌};
ghost use Rattle.opgen_num.specs.declared.format.TheConstants.{MAX_WIDTH};
ghost use Rattle.opgen_partial.specs.Recipe.{sign_correction, correction};

use crate::pairs::{Factor, Placing, Products};
use opgen_num::{MAX_WIDTH, signed_power};

// The greatest number of so many bits.
fn all_ones(bits: u32) -> i128
    requires { bits ≤ MAX_WIDTH }
    ensures value { result ≡ pos (2 ^ bits - 1) }
    ensures some { pos 0 ≤ℤ result }
{
    signed_power(bits) - 1
}

// The sum of all products of so many bits, where all bits are 1.
fn all_turned(a: u32, b: u32) -> i128
    requires { a + b ≤ MAX_WIDTH }
    ensures value { result ≡ pos ((2 ^ a - 1) * (2 ^ b - 1)) }
    ensures some { pos 0 ≤ℤ result }
    ensures few { result ≤ℤ pos (2 ^ 96) }
{
    all_ones(a) * all_ones(b)
}

/// What is to be added to the products of the bits of two factors, so that they make the product of the factors' numbers: a turned
/// bit is as if its negative and a power of two were added.
pub fn sign_correction(a: Factor, b: Factor) -> i128
    requires a { 1 ≤ a.width }
    requires b { 1 ≤ b.width }
    requires room { a.width + b.width ≤ MAX_WIDTH }
    ensures value { result ≡ sign_correction a.signed b.signed a.width b.width }
    ensures low { neg_ℤ (pos (2 ^ 96)) ≤ℤ result }
    ensures high { result ≤ℤ pos (2 ^ 97) }
{
    match (a.signed, b.signed) {
        (false, false) => 0,
        (true, false) => signed_power(a.width - 1) - signed_power(a.width + b.width - 1),
        (false, true) => signed_power(b.width - 1) - signed_power(a.width + b.width - 1),
        (true, true) => signed_power(a.width - 1) + signed_power(b.width - 1)
            - signed_power(a.width + b.width - 1),
    }
}

/// What is to be added to the products of the bits of two factors as a placing says, in their own columns: where they are
/// subtracted, all of them were turned once more.
pub fn placed_correction(products: &Products, placing: Placing) -> i128
    requires a { 1 ≤ products.now.a.width }
    requires b { 1 ≤ products.now.b.width }
    requires room { products.now.a.width + products.now.b.width ≤ MAX_WIDTH }
    ensures value { result ≡ correction products.now placing }
    ensures low { neg_ℤ (pos (2 ^ 98)) ≤ℤ result }
    ensures high { result ≤ℤ pos (2 ^ 98) }
{
    let signs = sign_correction(products.a, products.b);
    if placing.negative {
        return -(signs + all_turned(products.a.width, products.b.width));
    }
    signs
}
