//! Where files are read and stored, and where lines are printed: two traits, both in memory for tests, and both for the file
//! system and standard output.
//!
//! A folder or a sink is observable if contracts can refer to its contents (`told`). Clauses say what a call did to the
//! contents only of observable ones. Each failure raises a count, so every failure has a cause.
//!
//! Proved: A fetch returns the bytes of the file, a store changes the file of one name, and a put appends to the sink. Each
//! failure other than out of memory raises a count by one, and nothing else raises it. A sink counts each put. In memory:
//! which calls fail, and what each leaves.
//!
//! By: the traits `Folder` and `Sink`, `MemoryFolder`, `MemorySink`; `DiskFolder` and `StdSink` keep the traits and are not
//! observable.
#![tactic(auto)]

mod calls;
mod counts;
mod disk;
mod folder;
mod memory;
mod replace;
mod sink;
mod stdout;
mod whole;

pub use disk::DiskFolder;
pub use folder::{FetchFault, Folder, StoreFault};
pub use memory::{MemoryFolder, MemorySink};
pub use sink::{PutFault, Sink};
pub use stdout::StdSink;
