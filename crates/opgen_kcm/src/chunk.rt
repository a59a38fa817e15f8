//! Cuts an input into chunks of six bits, each of which addresses one table.

ghost use Rattle.std.specs.Prelude.{◌≡◌, ◌+◌, ◌*◌, ◌^◌, ◌<◌, ◌≤◌, length, unsigned_abs, IfOk};
ghost use Rattle.opgen_num.specs.declared.format.TheConstants.{MAX_INPUT};
ghost use Rattle.opgen_net.specs.WordRule.{bits_from};
ghost use Rattle.opgen_kcm.specs.Chunks.{chunk_at, digit_of};

use opgen_list::Items;
use opgen_net::{WordBit, push_bits};
use opgen_num::{Format, Word};
use std::alloc::{AllocError, Global};

/// The most bits that address a table.
pub(crate) const CHUNK_WIDTH: u32 = 6;

/// Neighbouring bits of an input, which stand for one of its digits.
#[derive(Clone, Copy)]
pub(crate) struct Chunk {
    /// The place of the lowest bit.
    pub low: u32,
    pub width: u32,
    /// Whether the digit is in two's complement.
    pub signed: bool,
}

impl Chunk {
    /// The chunk at a place of an input, the lowest at 0.
    pub(crate) fn at(width: u32, signed: bool, place: u32) -> Chunk
        requires most { width ≤ MAX_INPUT }
        requires within { 6 * place < width }
        ensures value { result ≡ chunk_at width signed place }
        ensures some { 1 ≤ result.width }
        ensures few { result.width ≤ 6 }
        ensures within { result.low + result.width ≤ width }
    {
        let low = CHUNK_WIDTH * place;
        let left = width - low;
        Chunk {
            low,
            width: left.min(CHUNK_WIDTH),
            signed: signed && left <= CHUNK_WIDTH,
        }
    }

    /// The number that the chunk's bits stand for.
    pub(crate) fn digit(self, bits: Word) -> i128
        requires some { 1 ≤ self.width }
        requires few { self.width ≤ 6 }
        requires width { length bits ≡ self.width }
        ensures value { result ≡ digit_of self bits }
        ensures small { unsigned_abs result ≤ 2 ^ self.width }
    {
        let format = Format {
            signed: self.signed,
            width: self.width,
            lsb: 0,
        };
        format.value(bits)
    }

    /// The chunk's bits of a node, the highest first.
    pub(crate) fn bits_of(self, alloc: Global, node: usize) -> Result<Items<WordBit>, AllocError>
        requires { self.low + self.width ≤ MAX_INPUT }
        ensures { IfOk result (λ bits. bits ≡ bits_from node self.low self.width) }
    {
        let mut bits = Items::new(alloc);
        push_bits(&mut bits, node, self.low, self.width)?;
        Ok(bits)
    }
}
