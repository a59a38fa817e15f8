//! What the kinds of operators share: what an operator of a kind means, and what decides whether it is accepted; modes of
//! outputs and recipes of nets; ports and the numbers of their words, ranges and limits, shifts, how far numbers go; and which names a
//! specification may have.
//!
//! Proved: Names and formats of ports; the least format that holds numbers that go so far below and above 0. How far
//! the numbers of an input, products of two inputs, and sums of inputs times coefficients go, the latter also in units
//! of the output's last place, rounded away from 0. A shift as factors of numerator and denominator, and products with
//! them. The limits of each version. Whether numbers are the words of whole cycles; the numbers of inputs in the last
//! cycle and before it, of outputs, and the sum of the last inputs, each times a coefficient. Whether formats, powers,
//! lengths and numbers are within their ranges. Whether a coefficient is whole in units of the output's last place. How
//! many different odd parts some numbers have. Whether a number is good for a fraction that is brought into the range of
//! a format, or is so modulo a power of two. The mode of outputs that are exact, faithful or rounded, and what a mark of
//! a mode says. What is told of recipes. The greatest shift of an operator in a version. Which names a specification may
//! have.
//!
//! By: `port`, `one`, `operands`, `with_rest`, `unsigned`, `covering`; `reach_of`, `reach_over`, `reach_of_product`,
//! `in_places`, `width_of`; `places_up`, `places_down`, `power`, `raised`, `scaled`, `units`, `is_whole`; `is_version`,
//! `most_input`, `most_signal`; `is_history`, `is_cycle`; `input`, `recent`, `last_two`, `weighted`, `output`; `is_power`,
//! `is_near`, `are_near`, `is_input`, `is_length`, `is_denominator`, `are_within`; `odd_part_count`; `good_saturated`,
//! `good_wrapped`; `mode_of_exact`, `mode_by`, `is_exact`, `is_faithful`, `is_exact_or_faithful`, `is_marked`; the methods
//! of `Compressor`, `Recurrence` and `Recipe`; `Profile::most_shift_in`; `is_spec_name`.
#![tactic(auto)]

pub mod history;
mod limits;
pub mod modes;
mod odd_parts;
pub mod overflow;
pub mod ports;
mod profile;
pub mod ranges;
pub mod reach;
mod recipes;
pub mod shifts;
mod spec_name;
mod words;

pub use limits::{is_version, most_input, most_signal};
pub use odd_parts::odd_part_count;
pub use ports::PortFormat;
pub use profile::Profile;
pub use recipes::{Compressor, Recipe, Recurrence};
pub use spec_name::{MAX_SPEC_NAME_LEN, is_spec_name};
pub use words::{is_cycle, is_history};

/// The greatest shift of an operator in any version of specifications: the power of two that brings
/// its exact value into units of the output's last place.
pub const MAX_SHIFT: i32 = 48;

/// The most bytes of the name of a target.
pub const MAX_TARGET_NAME_LEN: usize = 32;
