//! The entries of a table, which are multiples rounded to whole units, and the width and trailing zeros of its rows.

ghost use Rattle.std.specs.Prelude.{◌≡◌, ◌+◌, ◌*◌, ◌/◌, ◌^◌, ◌<◌, ◌≤◌, ℤ, pos, ◌<ℤ◌, ◌*ℤ◌, map, length, unsigned_abs, All, IfOk};
ghost use Rattle.opgen_num.specs.declared.format.TheConstants.{MAX_INPUT};
ghost use Rattle.opgen_num.specs.Formats.{digit_count};
ghost use Rattle.opgen_num.specs.Rounding.{distance};
ghost use Rattle.opgen_kcm.specs.Entries.{in_guard_units, entry, all_entries, least_of, offsets, greatest_of};
ghost use Rattle.opgen_kcm.specs.Entries.{divides_all, zeros_of, shape_of, rows_in};
ghost use Rattle.opgen_kcm.specs.Recipe.{HasRoom};

use crate::chunk::Chunk;
use opgen_num::{Ratio, Word, bit_length, nearest, power, signed_power};
use std::alloc::{AllocError, Global};

// A product of numbers that has a place in 128 bits.
fn times(a: i128, b: i128) -> i128
    requires { unsigned_abs a * unsigned_abs b < 2 ^ 126 }
    ensures value { result ≡ a *ℤ b }
    ensures size { unsigned_abs result ≡ unsigned_abs a * unsigned_abs b }
{
    a * b
}

/// A fraction in units that are 2 to `guard` times smaller.
pub(crate) fn in_guard_units(q: Ratio, guard: u32) -> Ratio
    requires guard { guard < 126 }
    requires small { unsigned_abs q.num * 2 ^ guard < 2 ^ 126 }
    ensures { result ≡ in_guard_units q guard }
{
    Ratio {
        num: times(q.num, power(guard) as i128),
        den: q.den,
    }
}

// The multiple of a fraction by a digit of a chunk.
fn entry(q: Ratio, chunk: Chunk, digit: i128) -> i128
    requires positive { pos 0 <ℤ q.den }
    requires chunk { chunk.low + chunk.width ≤ MAX_INPUT }
    requires room { HasRoom q (chunk.low + chunk.width) }
    requires digit { unsigned_abs digit ≤ 2 ^ chunk.width }
    ensures value { result ≡ entry q chunk digit }
    ensures small { unsigned_abs result < 2 ^ 126 }
{
    nearest(times(times(digit, signed_power(chunk.low)), q.num), q.den)
}

/// The multiples by the digits of a chunk, in the order of their addresses.
pub(crate) fn entries(alloc: Global, q: Ratio, chunk: Chunk) -> Result<Vec<i128>, AllocError>
    requires positive { pos 0 <ℤ q.den }
    requires some { 1 ≤ chunk.width }
    requires few { chunk.width ≤ 6 }
    requires chunk { chunk.low + chunk.width ≤ MAX_INPUT }
    requires room { HasRoom q (chunk.low + chunk.width) }
    ensures value { IfOk result (λ all. all.items ≡ all_entries q chunk) }
    ensures small { IfOk result (λ all. All (λ e. unsigned_abs e < 2 ^ 126) all.items) }
{
    let mut all = Vec::new(alloc);
    'addresses: for address in 0..power(chunk.width) {
        let digit = chunk.digit(Word::new(address, chunk.width));
        all.push(entry(q, chunk, digit))?;
    }
    Ok(all)
}

/// The least of some numbers.
pub(crate) fn least_of(numbers: &[i128]) -> i128
    requires some { 1 ≤ length numbers.now }
    requires small { All (λ e. unsigned_abs e < 2 ^ 126) numbers.now }
    ensures value { result ≡ least_of numbers.now }
    ensures small { unsigned_abs result < 2 ^ 126 }
{
    let mut least = numbers[0];
    'numbers: for number in numbers {
        least = least.min(*number);
    }
    least
}

/// How far each number is from the least.
pub(crate) fn offsets(alloc: Global, numbers: &[i128], least: i128) -> Result<Vec<u128>, AllocError>
    requires least { unsigned_abs least < 2 ^ 126 }
    requires small { All (λ e. unsigned_abs e < 2 ^ 126) numbers.now }
    ensures value { IfOk result (λ all. all.items ≡ map (λ e. distance e least) numbers.now) }
    ensures small { IfOk result (λ all. All (λ n. n < 2 ^ 127) all.items) }
{
    let mut all = Vec::new(alloc);
    'numbers: for number in numbers {
        all.push((*number - least).unsigned_abs())?;
    }
    Ok(all)
}

/// The greatest of some numbers, 0 of none.
pub(crate) fn greatest_of(numbers: &[u128]) -> u128
    ensures { result ≡ greatest_of numbers.now }
{
    let mut greatest = 0;
    'numbers: for number in numbers {
        greatest = greatest.max(*number);
    }
    greatest
}

/// How offsets stand in the rows of a table.
#[derive(Clone, Copy)]
pub(crate) struct Shape {
    /// How many zeros all of them end with, which no row holds.
    pub zeros: u32,
    /// The width of the rows.
    pub width: u32,
}

// The number of binary digits.
fn digit_count(number: u128) -> u32
    ensures { result ≡ digit_count number }
{
    bit_length(number)
}

// Whether all numbers end with so many zeros.
fn divides_all(zeros: u32, numbers: &[u128]) -> bool
    requires { zeros < 128 }
    ensures { result ≡ divides_all zeros numbers.now }
{
    let unit = power(zeros);
    'numbers: for number in numbers {
        if *number % unit != 0 {
            return false;
        }
    }
    true
}

// With how many zeros all numbers end.
fn zeros_of(numbers: &[u128], greatest: u128) -> u32
    requires greatest { greatest ≡ greatest_of numbers.now }
    requires small { greatest < 2 ^ 127 }
    ensures value { result ≡ zeros_of numbers.now }
    ensures few { result ≤ 127 }
{
    let mut zeros = digit_count(greatest);
    'zeros: while zeros > 0 && !divides_all(zeros, numbers) {
        zeros -= 1;
    }
    zeros
}

/// The shape of a table, by the greatest of its offsets.
pub(crate) fn shape_of(offsets: &[u128], greatest: u128) -> Shape
    requires greatest { greatest ≡ greatest_of offsets.now }
    requires small { greatest < 2 ^ 127 }
    ensures value { result ≡ shape_of offsets.now }
    ensures few { result.zeros ≤ 127 }
{
    let zeros = zeros_of(offsets, greatest);
    let width = digit_count(greatest / power(zeros));
    Shape { zeros, width }
}

/// The rows of a table, one for each of its offsets.
pub(crate) fn rows_in(
    alloc: Global,
    shape: Shape,
    offsets: &[u128],
) -> Result<Vec<Word>, AllocError>
    requires shape { shape ≡ shape_of offsets.now }
    requires few { shape.zeros ≤ 127 }
    ensures { IfOk result (λ rows. rows.items ≡ rows_in shape offsets.now) }
{
    let unit = power(shape.zeros);
    let mut rows = Vec::new(alloc);
    'rows: for offset in offsets {
        rows.push(Word::new(*offset / unit, shape.width))?;
    }
    Ok(rows)
}
