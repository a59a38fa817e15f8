//! Nets: circuits of nodes without registers, signals or names, and the calls that build them.
//!
//! Proved: Each call that appends a node appends that node and no other. It keeps the net valid and the flow of the earlier
//! nodes. If memory runs out, the net is as before. `word` returns a node with exactly the bits asked for. A list gains the
//! given number of bits of a node, the highest first, or of zeros.
//!
//! By: `Net::input`, `constant`, `cells`, `choice`, `table`, `delay`, `output`, `word`; `push_bits`, `push_zeros`; the law
//! `grown_nets_keep_nodes` of `opgen_part_laws`.
#![tactic(auto)]

mod cell;
mod lists;
mod net;
mod node;
mod word_bits;

pub use cell::{Cell, Class};
pub use lists::{push_bits, push_zeros};
pub use net::{Net, Output};
pub use node::Node;
pub use opgen_design::{Design, Dir, Driver, Expr, Formula, Op, Port, Signal, Slice, SoundFault};
pub use word_bits::WordBit;
