//! Laws on the parts of circuits, designs and texts, which no function of the program calls.
//!
//! Proved: A number has one canonical signed-digit form, with the fewest nonzero digits, and its partial sums step
//! up to it. A set of adders has one graph; there is one least set, one graph of it and one net of several
//! constants, and accepted constants that are searched for have such a net (a classical proof). Nets and heaps that
//! grow keep what they have. A product has one net, and so has a sum of products. The values, widths and columns of
//! accepted operators stay within stated bounds. The outputs of several constants and of transposed filters have
//! the least formats of their exact values, rounded down and up, and a transposed filter means what the direct one
//! with its taps means. The design of a net at each schedule that fits is sound, can be written and run, and the
//! paths in such a schedule end in time. A design has one run over its inputs, its steps in numbers and in lanes
//! are runs, its outputs look no further back than its depth, and its rows have one verdict. Where no way to an
//! output passes more than some number of registers, and each way from an input to an output passes exactly that
//! number, the outputs show one row of inputs each. A text has one list of tokens or one offset at which none
//! starts, each token is the longest, and it spells at most one design; that of a design spells it; a text that is
//! rejected has one cause. A file of vectors has one reading.
//!
//! By: the laws `one_form`, `fewest_nonzeros`, `partials_step_up`, `partials_end_in_number`, `digits_are_right`,
//! `digit_sets_reach`, `ranks_are_graphs`, `one_graph`, `reached_sets_serve`, `parts_are_odd`, `multiples_rest`,
//! `one_adder_set`, `one_least_graph`, `some_least_graph`, `one_least`, `numbers_count`, `one_net_of_several`,
//! `some_net_of_several`, `grown_nets_keep_nodes`, `bits_still_stand`, `one_net_of_product`, `one_net_of_sop`,
//! `most_are_left_out`, `columns_have_bits`, `sums_reach`, `products_reach`, `limits_are_within`,
//! `outputs_are_wide`, `shifts_are_small`, `exact_values_are_in_128`, `valid_are_accepted`, `accepted_have_room`,
//! `roots_are_narrow`, `polynomials_have_room`, `taps_have_room`, `multiples_are_least`, `taps_are_least`,
//! `taps_are_direct`, `fitting_nets_are_named`, `paths_fit`, `design_is_sound`, `design_runs`, `design_is_shaped`,
//! `design_is_writable`, `one_run`, `outputs_depend_on_depth`, `outputs_show_one_row`, `places_align`,
//! `small_designs_align`, `lane_steps_are_runs`, `steps_are_runs`, `one_verdict`, `one_cut`, `longest_token`,
//! `token_spans`, `one_reading_of_text`, `text_spells`, `text_lengths`, `one_cause`, `one_reading_of_rows`,
//! `definitions_compute`.
#![tactic(auto)]

mod adders;
mod digits;
mod graphs;
mod lanes;
mod nets;
mod operators;
mod plans;
mod rows;
mod runs;
mod texts;

pub use adders::{
    numbers_count, one_adder_set, one_least, one_least_graph, one_net_of_several, some_least_graph,
    some_net_of_several,
};
pub use digits::{
    digits_are_right, fewest_nonzeros, one_form, partials_end_in_number, partials_step_up,
};
pub use graphs::{
    digit_sets_reach, multiples_rest, one_graph, parts_are_odd, ranks_are_graphs,
    reached_sets_serve,
};
pub use lanes::lane_steps_are_runs;
pub use nets::{
    bits_still_stand, grown_nets_keep_nodes, most_are_left_out, one_net_of_product, one_net_of_sop,
};
pub use operators::{
    accepted_have_room, columns_have_bits, exact_values_are_in_128, fitting_nets_are_named,
    limits_are_within, multiples_are_least, outputs_are_wide, polynomials_have_room,
    products_reach, roots_are_narrow, shifts_are_small, sums_reach, taps_are_direct,
    taps_are_least, taps_have_room, valid_are_accepted,
};
pub use plans::{design_is_shaped, design_is_sound, design_is_writable, design_runs, paths_fit};
pub use rows::{definitions_compute, one_reading_of_rows};
pub use runs::{
    one_run, one_verdict, outputs_depend_on_depth, outputs_show_one_row, places_align,
    small_designs_align, steps_are_runs,
};
pub use texts::{
    longest_token, one_cause, one_cut, one_reading_of_text, text_lengths, text_spells, token_spans,
};
