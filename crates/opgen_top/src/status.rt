//! The status that the program ends with.

/// The exit status of the program.
#[derive(Clone, Copy, Debug, PartialEq, Eq)]
pub struct Status(pub u8);

impl Status {
    /// The result is stored and printed.
    pub const OK: Status = Status(0);

    /// The specification is rejected, or has no circuit.
    pub const SPEC_REFUSED: Status = Status(1);

    /// The words are no command.
    pub const USAGE: Status = Status(2);

    /// A file is missing or cannot be read.
    pub const READ_FAULT: Status = Status(3);

    /// A file or the line cannot be written.
    pub const WRITE_FAULT: Status = Status(4);

    pub const OUT_OF_MEMORY: Status = Status(5);

    /// The VHDL is rejected, or has other ports than the specification.
    pub const VHDL_REFUSED: Status = Status(6);

    /// The vectors are rejected.
    pub const VECTORS_REFUSED: Status = Status(7);

    /// A row of outputs is not good.
    pub const BAD_ROW: Status = Status(8);

    /// A file is longer than the limit.
    pub const TOO_LONG: Status = Status(9);
}
