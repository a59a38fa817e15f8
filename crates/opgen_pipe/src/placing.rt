//! How the nodes of a net are placed in the cycles of a clock.

/// How nodes are placed: each as early as its operands and the period allow, or so that the registers have few bits.
#[derive(Clone, Copy, Debug, PartialEq, Eq)]
pub enum Placing {
    Earliest,
    Few,
}

/// The period of a clock in picoseconds, and how nodes are placed in its cycles.
#[derive(Clone, Copy, Debug, PartialEq, Eq)]
pub struct Timing {
    pub period: u32,
    pub placing: Placing,
}
