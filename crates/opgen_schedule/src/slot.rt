//! The slot of a node in a schedule: a clock cycle, and a time in picoseconds within it.

/// Where a node stands: a cycle of the clock, and a time in picoseconds within it.
#[derive(Clone, Copy, Debug, PartialEq, Eq)]
pub struct Slot {
    pub cycle: usize,
    pub time: u32,
}
