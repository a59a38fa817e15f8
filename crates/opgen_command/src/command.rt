//! The commands of the program as a type, each with its file names and numbers.
use opgen_list::Text;

/// What is to be done, with the names of the files that it takes and its numbers.
#[derive(Drop)]
pub enum Command {
    /// Write the VHDL of a specification and a report on it, perhaps with a clock enable.
    Generate {
        spec: Text,
        /// How many workers search for a least set of adders.
        workers: u32,
        enable: bool,
    },
    /// Write so many rows of drawn inputs and their outputs.
    Vectors {
        spec: Text,
        seed: u32,
        cycles: u32,
    },
    /// Run VHDL over rows of inputs, and write those of its outputs beside them under `out`.
    Simulate {
        vhdl: Text,
        vectors: Text,
        out: Text,
    },
    /// Plan and run a filter of `8 * n` taps that is made from the number.
    Workload {
        n: u32,
    },
    /// Run VHDL of any make over rows of inputs, and judge its outputs by a specification.
    Check {
        spec: Text,
        vhdl: Text,
        vectors: Text,
        /// How many rows the outputs come after their inputs.
        latency: u32,
    },
}
