//! Files of vectors.
ghost use Rattle.std.specs.Prelude.{◌≡◌, ◌≤◌, ◌<◌, ◌^◌, ℕ, [], All, length, IfOk, Err};
ghost use Rattle.std.specs.Str.Lines.{lines};
ghost use Rattle.opgen_num.specs.Words.{AreRowsOfCells};
ghost use Rattle.opgen_num.specs.declared.format.TheConstants.{MAX_WIDTH};
ghost use Rattle.opgen_vec.specs.Writing.{row_count};
ghost use Rattle.opgen_vec.specs.Reading.{AreVectors, IsFirstBadLine, AreTooMany};

use crate::MAX_ROWS;
use crate::fault::VecFault;
use crate::row::{read_row, split_line};
use crate::vectors::Vectors;
use std::alloc::Global;

/// The cells of a file of vectors for ports of these widths, one column for each.
///
/// Time goes with the number of bytes, and memory with that and the number of widths.
///
/// # Errors
///
/// `BadLine` gives the first line that is no row, of as many lines as a file may have. `TooMany`
/// comes where those are rows and there are more.
pub fn read_vectors(alloc: Global, bytes: &[u8], widths: &[u32]) -> Result<Vectors, VecFault>
    requires some { 0 < length widths.now }
    requires few { length widths.now < 2 ^ 32 }
    requires narrow { All (λ width. width ≤ MAX_WIDTH) widths.now }
    ensures columns { IfOk result (λ v. v.columns ≡ length widths.now) }
    ensures rows { IfOk result (λ v. AreVectors widths.now v.cells.items (lines bytes.now)) }
    ensures cells { IfOk result (λ v. AreRowsOfCells widths.now (length (lines bytes.now)) v.cells.items) }
    ensures count { IfOk result (λ v. row_count v.columns v.cells.items ≡ length (lines bytes.now)) }
    ensures bad_line { (line : ℕ) → result ≡ Err (VecFault.BadLine line) → IsFirstBadLine widths.now (lines bytes.now) line }
    ensures too_many { result ≡ Err VecFault.TooMany → AreTooMany widths.now (lines bytes.now) }
{
    let cells = read_cells(alloc, bytes, widths)?;
    Ok(Vectors {
        columns: widths.len() as u32,
        cells,
    })
}

fn read_cells(alloc: Global, bytes: &[u8], widths: &[u32]) -> Result<Vec<u128>, VecFault>
    requires { All (λ width. width ≤ MAX_WIDTH) widths.now }
    ensures rows { IfOk result (λ cells. AreVectors widths.now cells.items (lines bytes.now)) }
    ensures bad_line { (line : ℕ) → result ≡ Err (VecFault.BadLine line) → IsFirstBadLine widths.now (lines bytes.now) line }
    ensures too_many { result ≡ Err VecFault.TooMany → AreTooMany widths.now (lines bytes.now) }
{
    let mut cells = Vec::new(alloc);
    let mut count = 0u32;
    let mut rest = bytes;
    'lines: while !rest.is_empty() {
        let (line, later) = split_line(rest);
        if count == MAX_ROWS {
            return Err(VecFault::TooMany);
        }
        if !read_row(line, widths, &mut cells)? {
            return Err(VecFault::BadLine { line: count + 1 });
        }
        count += 1;
        rest = later;
    }
    Ok(cells)
}

/// The number of rows in a file of vectors for no port: each line is empty.
///
/// # Errors
///
/// As [`read_vectors`]; never out of memory.
pub fn read_empty_rows(bytes: &[u8]) -> Result<u32, VecFault>
    ensures count { IfOk result (λ count. count ≡ length (lines bytes.now)) }
    ensures rows { IfOk result (λ count. AreVectors [] [] (lines bytes.now)) }
    ensures bad_line { (line : ℕ) → result ≡ Err (VecFault.BadLine line) → IsFirstBadLine [] (lines bytes.now) line }
    ensures too_many { result ≡ Err VecFault.TooMany → AreTooMany [] (lines bytes.now) }
    ensures memory { result ≡ Err VecFault.Memory → ⊥ }
{
    let mut rows = 0u32;
    let mut rest = bytes;
    'lines: while !rest.is_empty() {
        let (line, later) = split_line(rest);
        if rows == MAX_ROWS {
            return Err(VecFault::TooMany);
        }
        if !line.is_empty() {
            return Err(VecFault::BadLine { line: rows + 1 });
        }
        rows += 1;
        rest = later;
    }
    Ok(rows)
}
