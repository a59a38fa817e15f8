//! Files of vectors: rows of words in hexadecimal, one line for each cycle.
//!
//! Proved: The cells of a file of vectors, exactly if its lines are rows; otherwise the first bad line, or that there are
//! too many lines. A file has at most one reading. The text of a run. The draws of the stimulus. Rows put into streams, with
//! zeros if there is no row, and taken out of them. Whether a row of outputs is good, exactly by the definition. How a fault
//! prints.
//!
//! By: `read_vectors`, `read_empty_rows`, `write_rows`, `stimulus`, `next`, `drawn`, `row_count`, `pack`, `unpack`,
//! `is_good_row`, the `Display` of `VecFault`; of `opgen_part_laws` the laws `one_reading_of_rows` and
//! `definitions_compute`, by which definitions return what was worked out by hand.
#![tactic(auto)]

mod draw;
mod fault;
mod good_row;
mod hex;
mod read;
mod row;
mod streams;
mod vectors;
mod write;

pub use draw::{drawn, next, stimulus};
pub use fault::VecFault;
pub use good_row::is_good_row;
pub use read::{read_empty_rows, read_vectors};
pub use streams::{pack, unpack};
pub use vectors::Vectors;
pub use write::write_rows;

/// The most rows of a file of vectors.
pub const MAX_ROWS: u32 = 100_000;

// How many numbers 64 bits may say.
const WORD_NUMBERS: u128 = 1 << 64;
