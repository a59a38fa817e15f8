//! What a design has for one node of a net: its width, slot, number of copies and signal.
use opgen_schedule::Slot;

/// Where a node stands in a design: its width in bits, whether it is a constant, its slot in the schedule, how many copies it
/// has, and its own signal, which those of its copies come after.
#[derive(Clone, Copy, Debug, PartialEq, Eq)]
pub struct Standing {
    pub width: u32,
    pub constant: bool,
    pub slot: Slot,
    pub copies: usize,
    pub signal: usize,
}
