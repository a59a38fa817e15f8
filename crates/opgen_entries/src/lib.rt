//! What a document says of each kind of operator: its keys in each version, their ranges, and the operator that they give.
//!
//! Proved: The kind that a document names, and which kinds version 1 has. Which keys may and have to be in a document of
//! a version and a kind, and at which keys of a kind nothing may be beside the values of others. What is out of range
//! at a key of a kind, and at the names of inputs of a sum of products. The operator that the values of the keys give.
//!
//! By: `kind_of`, `is_first_kind`; `is_known`, `is_needed`, `clashes`; `key_outside`, `name_outside`, `factor_outside`;
//! `operator_of`.
#![tactic(auto)]

mod kinds;
mod stand;

pub use kinds::{
    clashes, factor_outside, is_first_kind, key_outside, kind_of, name_outside, operator_of,
};
pub use stand::{is_known, is_needed};
