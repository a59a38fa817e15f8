//! Single bits of streams.
ghost use Rattle.std.specs.Prelude.{◌≡◌, ◌<◌};
ghost use Rattle.opgen_streams.specs.Streams.{streams, bit_in};

use crate::WORD_BITS;
use std::simd::u64x4;

/// How many streams there are.
pub const STREAMS: usize = 256;

/// The bit of a stream.
pub fn bit_in(vector: &u64x4, stream: usize) -> bool
    requires { stream < streams }
    ensures { result ≡ bit_in vector.now stream }
{
    let words = vector.as_array();
    (words[stream / WORD_BITS] >> (stream % WORD_BITS)) & 1 == 1
}
