//! Operators, their kinds, and specifications: the ports, when outputs are good, which specifications are valid, and
//! when a net fits.
//!
//! Proved: The word of each kind. Whether a specification is valid. The ports of a specification and their formats, and
//! that of the output whose width it chooses. The mode of its outputs. Whether the outputs of a cycle are good, exactly by
//! the definition; they depend on as many of the last cycles alone as the kind of operator says. The shift; the input port
//! that must not be 0; the first coefficient that is not whole; the width that a version limits, if it may be over the
//! limit; whether the net is made of an adder graph; whether there is one output of one value, and whether its
//! width may be chosen.
//! The width of an output of sums and products is made for their least and greatest exact value. The operators' own
//! formats hold sums, products and quotients rounded down or up, multiples, remainders, and roots and quotients by
//! small constants rounded down; nothing of this kind is proved of polynomials. Of every valid specification, by its
//! version: input ports have 1 to 32 or 48 bits, output ports 1 to 64 or 96, the shift is within the range of its kind,
//! and the exact values are fractions of numbers of 128 bits. Entries of tables have at most 122 bits. A net that fits
//! a specification has ports that a design may have.
//!
//! By: `Kind::name`; `Spec::is_valid`, `mode`, `inputs`, `outputs`, `cut`, `good`; `Operator::shift`, `divisor`, `inexact`,
//! `need`, `least_shift`, `most_shift`, `has_graph`, `has_value`, `may_be_cut`; the laws `outputs_hold`, `outputs_recall`,
//! `inputs_are_wide`, `entries_are_small`, `products_have_width`; of `opgen_part_laws` the laws `valid_are_accepted`, `outputs_are_wide`,
//! `sums_reach`, `products_reach`, `limits_are_within`, `shifts_are_small`, `exact_values_are_in_128`,
//! `accepted_have_room`, `roots_are_narrow`, `fitting_nets_are_named`.
#![tactic(auto)]

mod acceptance;
mod given_names;
mod kind;
mod laws;
mod operator;
mod spec;

pub use given_names::{MAX_PORT_NAME_LEN, is_name_in, is_port_name};
pub use kind::Kind;
pub use laws::{
    entries_are_small, inputs_are_wide, outputs_hold, outputs_recall, products_have_width,
};
pub use operator::Operator;
pub use opgen_kinds::pair::Pair;
pub use opgen_kinds::poly::{Ends, Poly};
pub use opgen_kinds::product::Product;
pub use opgen_kinds::several::Several;
pub use opgen_kinds::single::Single;
pub use opgen_kinds::small_div::SmallDiv;
pub use opgen_kinds::sum::Sum;
pub use opgen_kinds::taps::Taps;
pub use opgen_ports::{
    MAX_SHIFT, MAX_SPEC_NAME_LEN, PortFormat, is_cycle, is_history, is_spec_name, most_input,
    most_signal, odd_part_count,
};
pub use opgen_terms::{Scaled, Sop, Times};
pub use spec::{Cut, DelayLine, Spec};
