//! Bits at a place of many words, gathered into one vector.
ghost use Rattle.std.specs.Prelude.{ℕ, ◌≡◌, ◌<◌, ◌^◌, [], suc, slice_index, slice_index_or};
ghost use Rattle.std.specs.Int.{bit_at};

use std::simd::u64x4;

// Each word moved up by a bit, and below it the bit at a place of the other.
fn with_bits(vector: u64x4, words: u64x4, place: usize) -> u64x4
    requires { place < 64 }
    ensures lowest { (i : ℕ) → i < 4 → bit_at (slice_index result i) 0 ≡ bit_at (slice_index words i) place }
    ensures above { (i j : ℕ) → i < 4 → j < 63 → bit_at (slice_index result i) (suc j) ≡ bit_at (slice_index vector i) j }
{
    (vector << u64x4::splat(1)) | ((words >> u64x4::splat(place as u64)) & u64x4::splat(1))
}

/// The bits at a place of each word, as a vector: bit j of a word is that of the word at j.
pub(crate) fn vector_at(words: &[u64x4], place: usize) -> u64x4
    requires { place < 64 }
    ensures bits { (i j : ℕ) → i < 4 → j < 64
        → bit_at (slice_index result i) j ≡ bit_at (slice_index (slice_index_or words.now j []) i) place }
    ensures small { (i : ℕ) → i < 4 → slice_index result i < 2 ^ 64 }
{
    let mut left = words.len();
    let mut vector = u64x4::splat(0);
    'rows: while left > 0 {
        left -= 1;
        vector = with_bits(vector, words[left], place);
    }
    vector
}
