//! Rows of numbers put into streams: a vector for each bit of each column, columns in order, the lowest bit first.
ghost use Rattle.std.specs.Prelude.{ℕ, ◌≡◌, ◌<◌, ◌+◌, ◌*◌, ◌/◌, ◌%◌, [], length, sum, slice_index, slice_index_or};
ghost use Rattle.std.specs.Int.{bit_at};
ghost use Rattle.opgen_num.specs.Words.{word, words_of};
ghost use Rattle.opgen_streams.specs.Rows.{row_with_zeros};
ghost use Rattle.opgen_streams.specs.Streams.{streams, word_in, words_in};

use crate::gather::vector_at;
use crate::{WORD_BITS, WORD_NUMBERS};
use std::simd::u64x4;

// The word of 64 bits at an index of a number, the lowest first.
fn word_of(number: u128, index: usize) -> u64
    ensures { (j : ℕ) → j < 64 → bit_at result j ≡ bit_at number (64 * index + j) }
{
    if index == 0 {
        (number % WORD_NUMBERS) as u64
    } else if index == 1 {
        (number / WORD_NUMBERS) as u64
    } else {
        0
    }
}

// The same of a cell, or 0 where there is none.
fn word_of_cell(cells: &[u128], place: usize, index: usize) -> u64
    ensures { (j : ℕ) → j < 64 → bit_at result j ≡ bit_at (slice_index cells.now place) (64 * index + j) }
{
    match cells.get(place) {
        Some(cell) => word_of(*cell, index),
        None => 0,
    }
}

// The same of four cells at equal distances. A place past the largest number is past each cell.
fn words_of_cells(cells: &[u128], place: usize, distance: usize, index: usize) -> u64x4
    ensures { (i j : ℕ) → i < 4 → j < 64
        → bit_at (slice_index result i) j ≡ bit_at (slice_index cells.now (place + i * distance)) (64 * index + j) }
{
    let second = place.saturating_add(distance);
    let third = second.saturating_add(distance);
    let fourth = third.saturating_add(distance);
    u64x4::from_array([
        word_of_cell(cells, place, index),
        word_of_cell(cells, second, index),
        word_of_cell(cells, third, index),
        word_of_cell(cells, fourth, index),
    ])
}

// The same of a cell for each stream: those of four streams stand together, that are 64 streams apart.
fn words_of_column(cells: &[u128], start: usize, distance: usize, index: usize) -> [u64x4; 64]
    ensures { (k j : ℕ) → k < streams → j < 64 → bit_at (slice_index (slice_index_or result (k % 64) []) (k / 64)) j
        ≡ bit_at (slice_index cells.now (start + k * distance)) (64 * index + j) }
{
    let further = distance.saturating_mul(WORD_BITS);
    let mut words = [u64x4::splat(0); WORD_BITS];
    let mut place = start;
    for row in 0..WORD_BITS {
        words[row] = words_of_cells(cells, place, further, index);
        place = place.saturating_add(distance);
    }
    words
}

fn pack_column(cells: &[u128], start: usize, distance: usize, lanes: &mut [u64x4])
    ensures { (k : ℕ) → k < streams → word_in lanes.new k ≡ word (length lanes.old) (slice_index cells.now (start + k * distance)) }
{
    let mut words = [u64x4::splat(0); WORD_BITS];
    for (place, lane) in lanes.iter_mut().enumerate() {
        if place % WORD_BITS == 0 {
            words = words_of_column(cells, start, distance, place / WORD_BITS);
        }
        *lane = vector_at(&words, place % WORD_BITS);
    }
}

/// Puts a row of the cells into each stream: the row `first + k * apart` into the stream k.
///
/// A row has a cell for each width. Of each cell the stream holds the lowest bits, as many as the column is wide, and zeros
/// where there is no such cell. Rows may be as far apart as they like.
pub fn pack_apart(cells: &[u128], first: usize, apart: usize, widths: &[u32], lanes: &mut [u64x4])
    requires lanes { length lanes.old ≡ sum widths.now }
    ensures rows { (k : ℕ) → k < streams → words_in widths.now lanes.new k
        ≡ words_of widths.now (row_with_zeros (length widths.now) (first + k * apart) cells.now) }
    ensures length { length lanes.new ≡ length lanes.old }
{
    let columns = widths.len();
    let distance = apart.saturating_mul(columns);
    let mut place = first.saturating_mul(columns);
    let mut start = 0;
    for width in widths {
        let end = start + *width as usize;
        pack_column(cells, place, distance, &mut lanes[start..end]);
        start = end;
        place = place.saturating_add(1);
    }
}
