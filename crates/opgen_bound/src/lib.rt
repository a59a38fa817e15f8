//! The least cost known so far: one word that threads share without a lock.
//!
//! Proved: Between any two steps of any threads, the word is the least of the start and of all costs that were
//! published. A look or a publishing returns at most what its pass had seen, and, while the pass holds the whole,
//! exactly the least of the start and of what was published before. Splitting and joining passes keeps their shares. The
//! close, with all passes joined, returns the least of the start and of what was published, which is at most what was
//! seen. By their signatures, no call has the handle `Wait`, and only `new` has an allocator.
//!
//! By: `Bound::new`, `look`, `publish`, `split`, `join`, `close`; the rule `IsBound`.
#![tactic(auto)]

mod bound;
mod steps;
#[cfg(test)]
mod tests;
mod view;

pub use bound::{Bound, Pass};
pub use view::View;
