//! The document of a specification, of whatever kind of operator: a tree of TOML, its keys, and the values at them.
//!
//! Proved: The tree of the bytes, if they have one. The version whose keys and ranges a document has, and which keys
//! the versions have. The names of the keys, their order, how those stand that all documents have, and whether the
//! value at a key is of its type and goes with those at others. The arrays of tables, and the keys of their tables. The
//! number, text, flag or items at a key, the formats of inputs, and how outputs are rounded and overflow. Decimal texts
//! and whole numbers as numerators over one denominator. Which number, length or element of an array is out of bounds.
//!
//! By: `parse`; `version_of`, `Version::has_key`; `document_keys`, `Key::name`, `arrays`, the methods of `Array`,
//! `shared_stand`, the methods of `Stand`; `is_wrong`; `value_at` and its neighbours, `format_at`, `unsigned_at`,
//! `counters_at`, `rounding_at`, `overflow_at`; `places_among`, `coefficient`, `numerators`, `given_denominator`,
//! `denominator_of`; `outside` and its neighbours.
#![tactic(auto)]

mod array;
mod decimal;
mod document;
mod fields;
mod key;
mod number;
mod range;
mod stand;
mod types;
mod version;

pub use array::{Array, arrays};
pub use document::{
    count, count_at, flag_at, items_at, number_at, optional_count_at, optional_flag_at, parse,
    small, small_at, text_at, value_at,
};
pub use fields::{counters_at, format_at, overflow_at, rounding_at, unsigned_at};
pub use key::{Key, Stand, Version, document_keys};
pub use number::{coefficient, denominator_of, given_denominator, numerators, places_among};
pub use range::{
    array_outside, bits_outside, coefficients_outside, compressor_at_outside, constant_limit,
    denominator_outside, extra_outside, far_outside, is_searched, length_outside, lut_outside,
    near_outside, numerator_outside, out_width_outside, outside, overflow_outside, power_outside,
    recurrence_outside, rounding_outside, width_outside,
};
pub use stand::shared_stand;
pub use types::is_wrong;
pub use version::version_of;
