//! Gates: one bit of each stream from bits of the same stream.
ghost use Rattle.std.specs.Prelude.{ℕ, ◌≡◌, ◌<◌, ◌&&◌, ◌||◌, not, if◌then◌else◌};
ghost use Rattle.opgen_num.specs.Words.{majority, xor};
ghost use Rattle.opgen_streams.specs.Streams.{bit_in, streams};

use std::simd::prelude::*;

/// The same bit in each stream.
pub fn splat(bit: bool) -> u64x4
    ensures { (k : ℕ) → k < streams → bit_in result k ≡ bit }
{
    if bit {
        u64x4::splat(u64::MAX)
    } else {
        u64x4::splat(0)
    }
}

pub fn both(first: u64x4, second: u64x4) -> u64x4
    ensures { (k : ℕ) → k < streams → bit_in result k ≡ bit_in first k && bit_in second k }
{
    first & second
}

pub fn either(first: u64x4, second: u64x4) -> u64x4
    ensures { (k : ℕ) → k < streams → bit_in result k ≡ bit_in first k || bit_in second k }
{
    first | second
}

pub fn different(first: u64x4, second: u64x4) -> u64x4
    ensures { (k : ℕ) → k < streams → bit_in result k ≡ xor (bit_in first k) (bit_in second k) }
{
    first ^ second
}

pub fn turned(bits: u64x4) -> u64x4
    ensures { (k : ℕ) → k < streams → bit_in result k ≡ not (bit_in bits k) }
{
    !bits
}

/// The first bit in the streams where the condition is 1, and else the second.
pub fn chosen(on: u64x4, first: u64x4, second: u64x4) -> u64x4
    ensures { (k : ℕ) → k < streams → bit_in result k ≡ (if bit_in on k then bit_in first k else bit_in second k) }
{
    either(both(on, first), both(turned(on), second))
}

/// The carry of a sum of three bits.
pub fn majority(first: u64x4, second: u64x4, third: u64x4) -> u64x4
    ensures { (k : ℕ) → k < streams → bit_in result k ≡ majority (bit_in first k) (bit_in second k) (bit_in third k) }
{
    either(both(first, second), both(third, either(first, second)))
}
