//! Sums of products, a kind of operator: their ports and formats, what they mean by their terms, and when outputs are good.
//!
//! Proved: Whether the fields are within the ranges of their keys, and whether a version of specifications has them.
//! The ports and the format of the output. The first shift of a term that is not within its limits, the first term that is
//! not whole, the width of the widest signal. The exact value. Whether the outputs of a cycle are good, exactly by the
//! definition.
//!
//! By: the methods of `Sop`.
#![tactic(auto)]

mod sop;
mod terms;

pub use sop::{COUNTED_BITS, MAX_TOTAL_BITS, Scaled, Sop, Times};
