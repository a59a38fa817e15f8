//! Kinds of operators, but for sums of products: for each type of fields its ports and formats, what it means, and when
//! outputs are good.
//!
//! Proved: Whether the fields are within the ranges of their keys, and whether a version of specifications has them.
//! The ports and formats. The shift, the first coefficient that is not whole, the width of the widest signal.
//! The exact value of the kinds with one output of one value. Whether the outputs of a cycle are good,
//! exactly by the definition. What is said of an operator by numbers and marks alone.
//!
//! By: the methods of `Sum`, `Product`, `Pair`, `Single`, `Several`, `SmallDiv`, `Poly`, `Taps`.
#![tactic(auto)]

pub mod pair;
pub mod poly;
pub mod product;
pub mod several;
pub mod single;
pub mod small_div;
pub mod sum;
pub mod taps;
