//! Why a command line is rejected: wrong usage, or out of memory.
use std::alloc::AllocError;
use thiserror::Error;

/// Why words are no command.
#[derive(Clone, Copy, Debug, PartialEq, Eq, Error)]
pub enum CommandFault {
    /// The first names no command, or the others are not what it takes. Asking for help or for a version is this too.
    #[error("usage: opgen COMMAND (generate, vectors, simulate, workload, check)")]
    Usage,
    #[error("out of memory")]
    Memory,
}

impl From<AllocError> for CommandFault {
    ghost use Rattle.std.specs.Prelude.{◌≡◌};
    ghost use Rattle.opgen_command.specs.declared.fault.CommandFault.TheVariants as faults;

    ghost from_gives = { λ _ fault. fault ≡ faults.Memory };

    fn from(_refused: AllocError) -> CommandFault {
        CommandFault::Memory
    }
}
