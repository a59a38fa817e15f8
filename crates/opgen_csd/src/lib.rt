//! The canonical signed-digit form of a number: digits -1, 0 and 1 without two neighbours that are not 0 (de Dinechin and
//! Kumm, Application-Specific Arithmetic).
//!
//! Proved: The canonical form of a number, its value, its number of digits that are not 0, and its partial sums. Each whole
//! number has exactly one such form, and no digits of the same value have fewer that are not 0.
//!
//! By: `recode`, `Digits::value`, `count`, `partials`; the laws `one_form` and `fewest_nonzeros` of `opgen_part_laws`.
#![tactic(auto)]

mod digits;
mod partials;

pub use digits::{Digits, recode};
pub use partials::Partials;
