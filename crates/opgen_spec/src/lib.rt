//! The reader of specifications: from the bytes of a TOML document to the specification, or to its first fault.
//!
//! Proved: The specification of the bytes, exactly if they have no fault; otherwise the first fault in order, with its
//! fields: a document of version 4 that asks for a sort of circuit that is not made yet has a fault of its version. An
//! accepted specification is valid and has the values that the document writes. How a fault prints.
//!
//! By: `read_spec`, the `Display` of `SpecFault`.
#![tactic(auto)]

mod class;
mod fault;
mod form;
mod limits;
mod lines;
mod make;
mod range;
mod read;
mod version;

pub use fault::SpecFault;
pub use opgen_document::Key;
pub use opgen_operator::{
    DelayLine, Kind, MAX_SPEC_NAME_LEN, Operator, Pair, Poly, PortFormat, Product, Scaled, Several,
    Single, SmallDiv, Sop, Spec, Sum, Taps, Times, is_cycle, is_history, is_spec_name,
};
pub use read::read_spec;
