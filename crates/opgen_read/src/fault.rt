//! Why a text of VHDL is rejected, and how the error prints.
ghost use Rattle.std.specs.Prelude.{◌≡◌, Some};
ghost use Rattle.opgen_read.specs.Answer.{fault_text};

use std::alloc::AllocError;
use std::error::Error;
use std::fmt;

/// Why a text gives no design.
#[derive(Clone, Copy, Debug, Drop)]
pub enum ReadFault {
    /// At that offset neither a token nor white space nor a comment starts.
    Lexical { offset: u64 },
    /// That piece, from 1, is the first that its place does not take. It is one past the last where
    /// the text ends too early.
    Syntax { piece: u32 },
    /// More than 65,536 signals or 64 ports.
    TooLarge,
    /// The first rule of sound designs that fails, and the first place at which it does, from 1 in
    /// ports, then signals, then drivers. Names of the entity or the architecture that do not agree
    /// are item 0 of rule 1, and so is an enable that names no port.
    Unsound { rule: u8, item: u32 },
    Memory,
}

impl fmt::Display for ReadFault {
    ghost output = { λ fault. Some (fault_text fault) };

    fn fmt<W: fmt::Write>(&self, f: &mut fmt::Formatter<W>) -> fmt::Result {
        match *self {
            ReadFault::Lexical { offset } => write!(f, "Lexical {offset}"),
            ReadFault::Syntax { piece } => write!(f, "Syntax {piece}"),
            ReadFault::TooLarge => f.write_str("TooLarge"),
            ReadFault::Unsound { rule, item } => write!(f, "Unsound {rule} {item}"),
            ReadFault::Memory => f.write_str("out of memory"),
        }
    }
}

impl Error for ReadFault {}

impl From<AllocError> for ReadFault {
    ghost use Rattle.opgen_read.specs.declared.fault.ReadFault.TheVariants as faults;

    ghost from_gives = { λ _ fault. fault ≡ faults.Memory };

    fn from(_refused: AllocError) -> ReadFault {
        ReadFault::Memory
    }
}
