//! Words of bits, the fixed-point formats that read them as numbers, when a rounded result is good, and the limits and the
//! out-of-memory error that every crate shares.
//!
//! Proved: The value of a `Word` is below 2 to the power of its width. Formats, and the least width that holds two numbers,
//! are computed as defined, and so is the whole number nearest to a fraction. For all numbers of 128 bits: whether a rounded
//! fraction is good in a mode, whether a rounded root is, and whether a quotient or a root with its remainder is exact.
//! Powers of two, and how many bits a number has.
//!
//! By: the invariant of `Word`; `Format::new`, `cover`, `least_width`, `nearest`; `good_linear`, `good_root`, `is_quotient`,
//! `is_root`; `power`, `signed_power`, `bit_length`.
#![tactic(auto)]

mod format;
mod limits;
mod memory;
mod mode;
mod number;
mod rounding;
mod word;

pub use format::{Format, FormatFault, MAX_INPUT, MAX_LSB, MAX_WIDTH, Ratio, cover, least_width};
pub use limits::{
    MAX_CONSTANT, MAX_DENOMINATOR, MAX_DIVISOR, MAX_NEAR_LSB, MAX_NUMERATOR, MAX_SCALED,
    MAX_SEARCHED_CONSTANT, MAX_SEARCHED_TAPS, MAX_TAPS,
};
pub use memory::Memory;
pub use mode::{Mode, Overflow, Rounding};
pub use number::{bit_length, power, signed_power};
pub use rounding::{good_linear, good_root, is_quotient, is_root, nearest};
pub use word::Word;
