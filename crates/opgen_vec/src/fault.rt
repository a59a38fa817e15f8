//! Why a text is rejected as a file of vectors, and how that prints.
ghost use Rattle.std.specs.Prelude.{◌≡◌, Some};
ghost use Rattle.opgen_vec.specs.Fault.{fault_text};

use std::alloc::AllocError;
use std::error::Error;
use std::fmt;

/// Why a text is no file of vectors.
#[derive(Clone, Copy, Debug, PartialEq, Eq, Drop)]
pub enum VecFault {
    /// The first line that is no row, counted from 1.
    BadLine { line: u32 },
    /// There are more lines than a file may have, and as many as it may have are rows.
    TooMany,
    Memory,
}

impl fmt::Display for VecFault {
    ghost output = { λ fault. Some (fault_text fault) };

    fn fmt<W: fmt::Write>(&self, f: &mut fmt::Formatter<W>) -> fmt::Result {
        match *self {
            VecFault::BadLine { line } => write!(f, "BadLine {line}"),
            VecFault::TooMany => write!(f, "TooMany"),
            VecFault::Memory => write!(f, "out of memory"),
        }
    }
}

impl Error for VecFault {}

impl From<AllocError> for VecFault {
    ghost use Rattle.opgen_vec.specs.declared.fault.VecFault.TheVariants as faults;

    ghost from_gives = { λ _ fault. fault ≡ faults.Memory };

    fn from(_refused: AllocError) -> VecFault {
        VecFault::Memory
    }
}
