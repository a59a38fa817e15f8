//! What a design beside a specification turns out to be.
use opgen_num::Memory;
use std::alloc::AllocError;
use thiserror::Error;

/// The verdict on a design's run.
#[derive(Clone, Copy, Debug, PartialEq, Eq)]
pub enum Checked {
    /// All rows that are judged are good: so many.
    Good { rows: u32 },
    /// The first row that is judged and not good, from 0.
    Bad { row: u32 },
}

/// Why there is no verdict.
#[derive(Clone, Copy, Debug, PartialEq, Eq, Error)]
pub enum CheckFault {
    /// The ports are not those of the specification.
    #[error("Ports")]
    Ports,
    #[error("out of memory")]
    Memory,
}

impl From<AllocError> for CheckFault {
    ghost use Rattle.std.specs.Prelude.{◌≡◌};
    ghost use Rattle.opgen_check.specs.declared.checked.CheckFault.TheVariants as faults;

    ghost from_gives = { λ _ fault. fault ≡ faults.Memory };

    fn from(_refused: AllocError) -> CheckFault {
        CheckFault::Memory
    }
}

impl From<Memory> for CheckFault {
    ghost use Rattle.std.specs.Prelude.{◌≡◌};
    ghost use Rattle.opgen_check.specs.declared.checked.CheckFault.TheVariants as faults;

    ghost from_gives = { λ _ fault. fault ≡ faults.Memory };

    fn from(_refused: Memory) -> CheckFault {
        CheckFault::Memory
    }
}
