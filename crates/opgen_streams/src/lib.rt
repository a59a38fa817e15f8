//! Bits of 256 streams side by side: a `u64x4` holds one bit of each stream.
//!
//! Proved: Each gate computes in each of the 256 streams what it computes on single bits. Rows of
//! numbers, any distance apart, are put into the streams, with zeros if there is no row, and taken out of them; other rows
//! stay.
//!
//! By: `both`, `either`, `different`, `turned`, `chosen`, `majority`, `splat`, `bit_in`, `pack_apart`, `unpack_apart`.
#![tactic(auto)]

mod bits;
mod gates;
mod gather;
mod pack;
mod unpack;

pub use bits::{STREAMS, bit_in};
pub use gates::{both, chosen, different, either, majority, splat, turned};
pub use pack::pack_apart;
pub use unpack::unpack_apart;

const WORD_BITS: usize = 64;

// How many numbers 64 bits may say.
const WORD_NUMBERS: u128 = 1 << 64;
