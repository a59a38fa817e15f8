//! The program: from the words of the command line, the files and the targets to files, a line and a status.
//!
//! Proved: The clauses in docs/GUARANTEES.md. The net of a valid specification fits it.
//!
//! By: `run`, and inside the crate `build_net`; the laws `nets_fit`, `circuits_serve`, `circuits_recover`.
#![tactic(auto)]

mod adder_graph;
mod answer;
mod check;
mod circuit;
mod context;
mod dispatch;
mod fetch;
mod generate;
mod laws;
mod line;
mod program;
mod read;
mod rows;
mod simulate;
mod status;
mod store_all;
mod targets;
mod vectors;
mod workload;

pub use laws::{circuits_recover, circuits_serve, nets_fit};
pub use opgen_search::{Gate, OpenGate};
pub use opgen_target::Target;
pub use opgen_workload::workload_spec;
pub use opgen_write::{VecSink, WriteFault, write_design};
pub use program::run;
pub use status::Status;
