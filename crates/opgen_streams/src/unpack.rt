//! Rows of numbers taken out of streams.
ghost use Rattle.std.specs.Prelude.{ℕ, ◌≡◌, ◌≤◌, ◌<◌, ◌+◌, ◌*◌, ◌/◌, ◌%◌, ◌^◌, [], All, length, take, set, sum, slice_index, slice_index_or};
ghost use Rattle.opgen_num.specs.Words.{nat};
ghost use Rattle.opgen_streams.specs.Rows.{row_at, row_in};
ghost use Rattle.opgen_streams.specs.Streams.{streams, word_in};

use crate::gather::vector_at;
use crate::{WORD_BITS, WORD_NUMBERS};
use std::simd::u64x4;

// The number that each stream holds: those of four streams stand together, that are 64 streams apart.
fn words_in_streams(lanes: &[u64x4]) -> [u64x4; 64]
    requires { length lanes.now ≤ 64 }
    ensures { (k : ℕ) → k < streams → slice_index (slice_index_or result (k % 64) []) (k / 64) ≡ nat (word_in lanes.now k) }
{
    let mut words = [u64x4::splat(0); WORD_BITS];
    for row in 0..WORD_BITS {
        words[row] = vector_at(lanes, row);
    }
    words
}

fn word_of_stream(words: &[u64x4], stream: usize) -> u64
    requires { stream < streams }
    ensures { result ≡ slice_index (slice_index_or words.now (stream % 64) []) (stream / 64) }
{
    match words.get(stream % WORD_BITS) {
        Some(vector) => vector.as_array()[stream / WORD_BITS],
        None => 0,
    }
}

// The number of a stream, of the lowest 64 bits and of those above.
fn number_of_stream(low: &[u64x4], high: &[u64x4], stream: usize) -> u128
    requires { stream < streams }
    ensures { result ≡ slice_index (slice_index_or low.now (stream % 64) []) (stream / 64)
        + 2 ^ 64 * slice_index (slice_index_or high.now (stream % 64) []) (stream / 64) }
{
    let low = word_of_stream(low, stream) as u128;
    let high = word_of_stream(high, stream) as u128;
    high * WORD_NUMBERS + low
}

// A number at a place, if there is such a place.
fn put(cells: &mut [u128], place: usize, number: u128)
    ensures { cells.new ≡ set cells.old place number }
{
    if place < cells.len() {
        cells[place] = number;
    }
}

// The number of each stream, at equal distances. A place past the largest number is past each cell.
fn unpack_column(lanes: &[u64x4], count: usize, start: usize, distance: usize, cells: &mut [u128])
    requires count { count ≤ streams }
    requires narrow { length lanes.now ≤ 128 }
    requires distance { 0 < distance }
    ensures put { (k : ℕ) → k < count → start + k * distance < length cells.old
        → slice_index cells.new (start + k * distance) ≡ nat (word_in lanes.now k) }
    ensures kept { (i : ℕ) → ((k : ℕ) → k < count → ¬ i ≡ start + k * distance) → slice_index cells.new i ≡ slice_index cells.old i }
    ensures length { length cells.new ≡ length cells.old }
{
    let (low, high) = lanes.split_at(lanes.len().min(WORD_BITS));
    let low = words_in_streams(low);
    let high = words_in_streams(high);
    let mut place = start;
    for stream in 0..count {
        put(cells, place, number_of_stream(&low, &high, stream));
        place = place.saturating_add(distance);
    }
}

/// Takes the row of each of so many streams, and puts that of the stream k at the row `first + k * apart` of the cells.
///
/// A row has a cell for each width. Where there are fewer cells, those that there are are put, and the cells of all other rows
/// stay. Rows may be as far apart as they like.
pub fn unpack_apart(
    lanes: &[u64x4],
    count: usize,
    first: usize,
    apart: usize,
    widths: &[u32],
    cells: &mut [u128],
)
    requires count { count ≤ streams }
    requires narrow { All (λ width. width ≤ 128) widths.now }
    requires lanes { length lanes.now ≡ sum widths.now }
    requires apart { 0 < apart }
    ensures put { (k : ℕ) → k < count → row_at (length widths.now) (first + k * apart) cells.new
        ≡ take (length (row_at (length widths.now) (first + k * apart) cells.old)) (row_in widths.now lanes.now k) }
    ensures kept { (i : ℕ) → ((k column : ℕ) → k < count → column < length widths.now → ¬ i ≡ (first + k * apart) * length widths.now + column)
        → slice_index cells.new i ≡ slice_index cells.old i }
    ensures length { length cells.new ≡ length cells.old }
{
    let columns = widths.len();
    let distance = apart.saturating_mul(columns);
    let mut place = first.saturating_mul(columns);
    let mut rest = lanes;
    for width in widths {
        let (column, later) = rest.split_at(*width as usize);
        unpack_column(column, count, place, distance, cells);
        rest = later;
        place = place.saturating_add(1);
    }
}
