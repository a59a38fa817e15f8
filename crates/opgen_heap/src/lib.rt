//! Bit heaps: bits with weights in columns, and a constant, that are to be added.
//!
//! Proved: Each call raises the sum of a heap by the value added, modulo 2 to the power of the heap's width, and changes
//! what the heap holds exactly as stated. If memory runs out in `append` or `add_bit`, the heap is as before. A heap's bits
//! stay valid while the net grows.
//!
//! By: `Heap::append`, `add_bit`, `add_row`, `add_constant`, `columns`, `constant`, `width`; the law `bits_still_stand` of
//! `opgen_part_laws`.
#![tactic(auto)]

mod heap;

pub use heap::Heap;
