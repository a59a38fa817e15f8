//! The command line: from its words to a command.
//!
//! Proved: The command that the words write: the first word names it, the others are what `clap` finds in them, and each
//! number is in its range. A usage error is returned exactly if the words write no command.
//!
//! By: `read_command`.
#![tactic(auto)]

mod apps;
mod command;
mod fault;
mod name;
mod read;
mod values;

pub use command::Command;
pub use fault::CommandFault;
pub use read::read_command;
