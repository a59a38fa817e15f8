//! How an output is rounded from its exact value, and what becomes of a value out of the range of a chosen width.

/// How an output is rounded from its exact value, in units of its last place (ulp).
#[derive(Clone, Copy, Debug, PartialEq, Eq)]
pub enum Mode {
    /// The output is the exact value; of a quotient or a root, the whole one with its remainder.
    Exact,
    /// The output is less than one unit from the exact value.
    Faithful,
    /// The output is the floor of the exact value, as of `>>` in C and numpy.
    Down,
    /// The output is the floor of the exact value and half a unit.
    Nearest,
}

/// How an output is rounded, if its specification says so.
#[derive(Clone, Copy, Debug, PartialEq, Eq)]
pub enum Rounding {
    /// The output is the floor of the exact value.
    Down,
    /// The output is the floor of the exact value and half a unit.
    Nearest,
}

/// What becomes of a value that is out of the range of an output whose width is chosen.
#[derive(Clone, Copy, Debug, PartialEq, Eq)]
pub enum Overflow {
    /// It is brought into the range.
    Saturate,
    /// It is taken modulo two to the power of the width.
    Wrap,
}
