//! Rows of vectors as 256 streams of bits, one row after another in one stream after another.
ghost use Rattle.std.specs.Prelude.{ℕ, ◌≡◌, ◌≤◌, ◌<◌, ◌+◌, ◌++◌, All, length, sum, OnOk, OnErr};
ghost use Rattle.opgen_num.specs.Words.{words_of};
ghost use Rattle.opgen_streams.specs.Streams.{streams, words_in};
ghost use Rattle.opgen_vec.specs.Streams.{row_or_zeros, rows_in};
ghost use Rattle.opgen_vec.specs.Writing.{row_count};

use crate::vectors::Vectors;
use opgen_num::Memory;
use opgen_streams::{pack_apart, unpack_apart};
use std::simd::u64x4;

/// Puts a row into each stream, from this one on, and zeros where no row is left. Of each cell the
/// stream holds the lowest bits, as many as the column is wide.
pub fn pack(rows: &Vectors, first: u32, widths: &[u32], lanes: &mut [u64x4])
    requires columns { rows.now.columns ≡ length widths.now }
    requires some { 0 < length widths.now }
    requires lanes { length lanes.old ≡ sum widths.now }
    requires first { first ≤ row_count rows.now.columns rows.now.cells.items }
    ensures rows { (k : ℕ) → k < streams → words_in widths.now lanes.new k
        ≡ words_of widths.now (row_or_zeros rows.now.columns (first + k) rows.now.cells.items) }
    ensures length { length lanes.new ≡ length lanes.old }
{
    pack_apart(&rows.cells, first as usize, 1, widths, lanes);
}

/// Appends the row in each of so many streams, from the first on.
///
/// # Errors
///
/// Where memory lacks, the rows are as before.
pub fn unpack(lanes: &[u64x4], count: u32, widths: &[u32], rows: &mut Vectors) -> Result<(), Memory>
    requires count { count ≤ streams }
    requires narrow { All (λ width. width ≤ 128) widths.now }
    requires columns { rows.old.columns ≡ length widths.now }
    requires lanes { length lanes.now ≡ sum widths.now }
    ensures cells { OnOk result (rows.new.cells.items ≡ rows.old.cells.items ++ rows_in widths.now lanes.now count) }
    ensures columns { rows.new.columns ≡ rows.old.columns }
    ensures memory { OnErr result (rows.new.cells.items ≡ rows.old.cells.items) }
{
    let before = rows.cells.len();
    let count = count as usize;
    rows.cells
        .resize(before + count * rows.columns as usize, 0)?;
    unpack_apart(lanes, count, 0, 1, widths, &mut rows.cells[before..]);
    Ok(())
}
