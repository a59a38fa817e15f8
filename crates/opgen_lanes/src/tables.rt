//! Tables looked up in all streams: by halving the addresses, or row by row.
ghost use Rattle.std.specs.Prelude.{ℕ, ◌≡◌, ◌<◌, ◌≤◌, ◌^◌, ◌&&◌, false, not, true, if◌then◌else◌};
ghost use Rattle.std.specs.Prelude.{All, [], ◌∷◌, length, min};
ghost use Rattle.opgen_num.specs.declared.format.TheConstants.{MAX_WIDTH};
ghost use Rattle.opgen_num.specs.Words.{nat};
ghost use Rattle.opgen_runs.specs.Evaluate.{table_word};
ghost use Rattle.opgen_streams.specs.Streams.{bit_in, streams, word_in};
ghost use Rattle.opgen_lanes.specs.Tables.{AreInOrder, word_of};
ghost use Rattle.opgen_lanes.specs.Words.{HaveWord};

use crate::words::{equal, write, write_where};
use opgen_num::Word;
use opgen_streams::{both, either, splat, turned};
use std::simd::prelude::*;

// The widest address that is halved bit by bit.
const MOST_ADDRESS_BITS: usize = 32;

// Whether the rows are at the addresses 0, 1 and so on.
fn are_in_order(rows: &[(Word, Word)]) -> bool
    ensures { result ≡ true → AreInOrder rows.now }
{
    for place in 0..rows.len() {
        if rows[place].0.bits() != place as u128 {
            return false;
        }
    }
    true
}

// The word of the row at a place, and past the rows the other word.
fn word_of(rows: &[(Word, Word)], other: Word, place: usize) -> Word
    ensures { result ≡ word_of rows.now other place }
{
    match rows.get(place) {
        Some(row) => row.1,
        None => other,
    }
}

// What the bits of two words at neighbouring addresses put into a vector, by the first bit and twice the second.
fn ways(here: u64x4, low: u64x4) -> [u64x4; 4]
    ensures { HaveWord result (λ k. false ∷ (bit_in here k && not (bit_in low k)) ∷ (bit_in here k && bit_in low k) ∷ bit_in here k ∷ []) }
{
    [splat(false), both(here, turned(low)), both(here, low), here]
}

// Puts one of two words in the streams of `here`, which had zeros: the second where the lowest bit of the address is 1, and else the first.
fn put_pair(here: u64x4, low: u64x4, first: Word, second: Word, out: &mut [u64x4])
    requires first { length first ≡ length out.old }
    requires second { length second ≡ length out.old }
    requires zeros { (k : ℕ) → k < streams → bit_in here k ≡ true → nat (word_in out.old k) ≡ 0 }
    ensures { HaveWord out.new (λ k. if bit_in here k then (if bit_in low k then second else first) else word_in out.old k) }
{
    let ways = ways(here, low);
    let mut ones = first.bits();
    let mut twos = second.bits();
    for place in 0..out.len() {
        let way = ones % 2 + 2 * (twos % 2);
        out[place] = either(out[place], ways[way as usize]);
        ones /= 2;
        twos /= 2;
    }
}

// How many of the rows are at addresses below a power of two.
fn count_below(rows: &[(Word, Word)], bits: usize) -> usize
    requires { bits < MOST_ADDRESS_BITS }
    ensures { result ≡ min (2 ^ bits) (length rows.now) }
{
    let below: usize = 1 << bits;
    below.min(rows.len())
}

// Puts the word of each address in the streams of `here`, which had zeros, by the highest bit of the address first. The rows are at the
// addresses 0, 1 and so on.
fn put_rows(rows: &[(Word, Word)], other: Word, address: &[u64x4], here: u64x4, out: &mut [u64x4])
    requires words { All (λ r. length r.1 ≡ length other) rows.now }
    requires other { length other ≡ length out.old }
    requires some { 0 < length address.now }
    requires short { length address.now ≤ MOST_ADDRESS_BITS }
    requires zeros { (k : ℕ) → k < streams → bit_in here k ≡ true → nat (word_in out.old k) ≡ 0 }
    ensures { HaveWord out.new (λ k. if bit_in here k then word_of rows.now other (nat (word_in address.now k)) else word_in out.old k) }
{
    if rows.is_empty() {
        put_pair(here, here, other, other, out);
        return;
    }
    let top = address.len() - 1;
    let high = address[top];
    if top == 0 {
        let first = word_of(rows, other, 0);
        let second = word_of(rows, other, 1);
        put_pair(here, high, first, second, out);
        return;
    }
    let (lower, upper) = rows.split_at(count_below(rows, top));
    put_rows(lower, other, &address[..top], both(here, turned(high)), out);
    put_rows(upper, other, &address[..top], both(here, high), out);
}

// Looks up rows at the addresses 0, 1 and so on.
fn look_up_in_order(rows: &[(Word, Word)], other: Word, address: &[u64x4], out: &mut [u64x4])
    requires order { AreInOrder rows.now }
    requires words { All (λ r. length r.1 ≡ length other) rows.now }
    requires other { length other ≡ length out.old }
    requires some { 0 < length address.now }
    requires short { length address.now ≤ MOST_ADDRESS_BITS }
    requires narrow_word { length other ≤ MAX_WIDTH }
    ensures { HaveWord out.new (λ k. table_word rows.now other (word_in address.now k)) }
{
    write(Word::new(0, other.width()), out);
    put_rows(rows, other, address, splat(true), out);
}

// Looks up rows at any addresses, each compared with the addresses of all streams.
fn look_up_row_by_row(rows: &[(Word, Word)], other: Word, address: &[u64x4], out: &mut [u64x4])
    requires addresses { All (λ r. length r.0 ≡ length address.now) rows.now }
    requires words { All (λ r. length r.1 ≡ length other) rows.now }
    requires other { length other ≡ length out.old }
    requires narrow_address { length address.now ≤ MAX_WIDTH }
    requires narrow_word { length other ≤ MAX_WIDTH }
    ensures { HaveWord out.new (λ k. table_word rows.now other (word_in address.now k)) }
{
    write(other, out);
    for past in 0..rows.len() {
        let (from, word) = rows[rows.len() - 1 - past];
        write_where(equal(from, address), word, out);
    }
}

/// The word of the first row of each stream's address, and else the other word.
///
/// Rows at the addresses 0, 1 and so on, as those of generated tables, are looked up by halving: the vectors that say which streams have an
/// address are shared by all bits of its word.
pub fn look_up(rows: &[(Word, Word)], other: Word, address: &[u64x4], out: &mut [u64x4])
    requires addresses { All (λ r. length r.0 ≡ length address.now) rows.now }
    requires words { All (λ r. length r.1 ≡ length other) rows.now }
    requires other { length other ≡ length out.old }
    requires narrow_address { length address.now ≤ MAX_WIDTH }
    requires narrow_word { length other ≤ MAX_WIDTH }
    ensures { HaveWord out.new (λ k. table_word rows.now other (word_in address.now k)) }
{
    let bits = address.len();
    if bits > 0 && bits <= MOST_ADDRESS_BITS && are_in_order(rows) {
        look_up_in_order(rows, other, address, out);
    } else {
        look_up_row_by_row(rows, other, address, out);
    }
}
