//! Operations on the words of all streams.
ghost use Rattle.std.specs.Prelude.{ℕ, ◌≡◌, ◌<◌, ◌≤◌, ◌+◌, ◌&&◌, ◌||◌, false, not, true, nat_eq, if◌then◌else◌};
ghost use Rattle.std.specs.Prelude.{Some, ◌++◌, length, map, slice_index_or, take};
ghost use Rattle.opgen_num.specs.declared.format.TheConstants.{MAX_WIDTH};
ghost use Rattle.opgen_num.specs.Words.{pairwise, sum_with, xor, nat};
ghost use Rattle.opgen_design.specs.Value.{combined, IsWidth, joined};
ghost use Rattle.opgen_streams.specs.Streams.{bit_in, streams, word_in};
ghost use Rattle.opgen_lanes.specs.Words.{HaveWord};

use opgen_design::Op;
use opgen_num::Word;
use opgen_streams::{both, chosen, different, either, majority, splat, turned};
use std::simd::prelude::*;

/// Each bit turned.
pub fn turn(word: &mut [u64x4])
    ensures { HaveWord word.new (λ k. map not (word_in word.old k)) }
{
    for place in 0..word.len() {
        word[place] = turned(word[place]);
    }
}

/// Bit by bit 1 where both are.
pub fn keep_both(first: &mut [u64x4], second: &[u64x4])
    requires { length first.old ≡ length second.now }
    ensures { HaveWord first.new (λ k. pairwise ◌&&◌ (word_in first.old k) (word_in second.now k)) }
{
    for place in 0..first.len() {
        first[place] = both(first[place], second[place]);
    }
}

/// Bit by bit 1 where one of the two is.
pub fn keep_either(first: &mut [u64x4], second: &[u64x4])
    requires { length first.old ≡ length second.now }
    ensures { HaveWord first.new (λ k. pairwise ◌||◌ (word_in first.old k) (word_in second.now k)) }
{
    for place in 0..first.len() {
        first[place] = either(first[place], second[place]);
    }
}

/// Bit by bit 1 where they differ.
pub fn keep_different(first: &mut [u64x4], second: &[u64x4])
    requires { length first.old ≡ length second.now }
    ensures { HaveWord first.new (λ k. pairwise xor (word_in first.old k) (word_in second.now k)) }
{
    for place in 0..first.len() {
        first[place] = different(first[place], second[place]);
    }
}

/// Adds a word, without the last carry.
pub fn add(first: &mut [u64x4], second: &[u64x4])
    requires { length first.old ≡ length second.now }
    ensures { HaveWord first.new (λ k. sum_with false (word_in first.old k) (word_in second.now k)) }
{
    let mut carried = splat(false);
    for place in 0..first.len() {
        let one = first[place];
        let other = second[place];
        first[place] = different(different(one, other), carried);
        carried = majority(one, other, carried);
    }
}

/// The first word stays in the streams where the condition is 1, and else the second takes its place.
pub fn choose(on: u64x4, first: &mut [u64x4], second: &[u64x4])
    requires { length first.old ≡ length second.now }
    ensures { HaveWord first.new (λ k. if bit_in on k then word_in first.old k else word_in second.now k) }
{
    for place in 0..first.len() {
        first[place] = chosen(on, first[place], second[place]);
    }
}

// The bit at a place, from the lowest.
fn bit_at(word: Word, place: usize) -> bool
    requires place { place < length word }
    requires width { length word < 128 }
    ensures { result ≡ slice_index_or word place false }
{
    (word.bits() >> place) % 2 == 1
}

/// The same word in each stream.
pub fn write(word: Word, vectors: &mut [u64x4])
    requires same { length word ≡ length vectors.old }
    requires width { length word < 128 }
    ensures { HaveWord vectors.new (λ _. word) }
{
    for place in 0..vectors.len() {
        vectors[place] = splat(bit_at(word, place));
    }
}

/// Puts a word in place of what stands in the streams where the condition is 1.
pub fn write_where(on: u64x4, word: Word, vectors: &mut [u64x4])
    requires same { length word ≡ length vectors.old }
    requires width { length word < 128 }
    ensures { HaveWord vectors.new (λ k. if bit_in on k then word else word_in vectors.old k) }
{
    for place in 0..vectors.len() {
        vectors[place] = chosen(on, splat(bit_at(word, place)), vectors[place]);
    }
}

/// Where the streams' word is this one.
pub fn equal(word: Word, vectors: &[u64x4]) -> u64x4
    requires same { length word ≡ length vectors.now }
    requires width { length word < 128 }
    ensures { (k : ℕ) → k < streams → bit_in result k ≡ nat_eq (nat word) (nat (word_in vectors.now k)) }
{
    let mut same = splat(true);
    for place in 0..vectors.len() {
        let turn = splat(!bit_at(word, place));
        same = both(same, different(turn, vectors[place]));
    }
    same
}

// Takes a word off, by the sum with its bits turned and a carry.
fn subtract(first: &mut [u64x4], second: &[u64x4])
    requires { length first.old ≡ length second.now }
    ensures { HaveWord first.new (λ k. sum_with true (word_in first.old k) (map not (word_in second.now k))) }
{
    let mut carried = splat(true);
    for place in 0..first.len() {
        let one = first[place];
        let off = turned(second[place]);
        first[place] = different(different(one, off), carried);
        carried = majority(one, off, carried);
    }
}

// Puts the second word below the first.
fn join(first: &mut [u64x4], width: usize, second: &[u64x4]) -> usize
    requires room { width + length second.now ≤ length first.old }
    requires narrow { width + length second.now ≤ MAX_WIDTH }
    ensures width { result ≡ width + length second.now }
    ensures word { HaveWord (take result first.new) (λ k. word_in second.now k ++ word_in (take width first.old) k) }
{
    let added = second.len();
    first.copy_within(0..width, added);
    first[..added].copy_from_slice(second);
    width + added
}

/// Puts the two operands together, in the place of the first, and gives the width of what stands there.
pub fn combine(op: Op, first: &mut [u64x4], width: usize, second: &[u64x4]) -> usize
    requires fits { (w : ℕ) × (joined op width (length second.now) ≡ Some w) }
    requires first { IsWidth width }
    requires second { IsWidth (length second.now) }
    requires room { MAX_WIDTH ≤ length first.old }
    ensures width { joined op width (length second.now) ≡ Some result }
    ensures word { HaveWord (take result first.new) (λ k. combined op (word_in (take width first.old) k) (word_in second.now k)) }
{
    match op {
        Op::And => keep_both(&mut first[..width], second),
        Op::Or => keep_either(&mut first[..width], second),
        Op::Xor => keep_different(&mut first[..width], second),
        Op::Plus => add(&mut first[..width], second),
        Op::Minus => subtract(&mut first[..width], second),
        Op::Cat => return join(first, width, second),
    }
    width
}
