//! Limits of the numbers that specifications have: coefficients, constants and taps of filters, and powers of lowest bits.

/// The greatest coefficient over the common denominator, without its sign.
pub const MAX_NUMERATOR: u64 = 1 << 30;

/// The greatest common denominator of coefficients.
pub const MAX_DENOMINATOR: i64 = 1 << 30;

/// The greatest constant or tap of an adder graph, without its sign.
pub const MAX_CONSTANT: u64 = 1_048_575;

/// The greatest constant or tap of an adder graph that is searched for, without its sign.
pub const MAX_SEARCHED_CONSTANT: u64 = 2047;

/// The most coefficients or taps of a filter.
pub const MAX_TAPS: u32 = 256;

/// The most taps of a filter whose adder graph is searched for.
pub const MAX_SEARCHED_TAPS: u32 = 32;

/// In the kinds and versions that have fewer lowest bits, the greatest weight of one is 2 to this power, the least 2 to its
/// negative.
pub const MAX_NEAR_LSB: i32 = 32;

/// The greatest constant that an input is divided by.
pub const MAX_DIVISOR: u32 = 32;

/// The most constants times inputs in a sum of products.
pub const MAX_SCALED: u32 = 64;
