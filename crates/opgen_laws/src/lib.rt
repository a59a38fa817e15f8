//! Laws beside the program: what holds of correct answers and of the circuits of specifications, whatever the program does.
//!
//! Proved: The words, the files and the targets have at most one correct answer, and it is impossible that they have none
//! (a classical proof). It is the same for every number of workers. Each status says what the words, the files and the
//! targets are, and each cause for which a specification is rejected, or `check` rejects, makes that rejection the correct
//! answer. The statuses 2, 3 and 9 have one line each. A specification has at most one net, and at most one circuit for a
//! table of delays; if it is valid, its circuit is sound, and `check` finds each row of it that it judges good. Good
//! outputs depend on the inputs of the last cycle and of as many before it as the operator remembers. A design of an
//! operator without memory, each of whose outputs shows one row of inputs, serves its specification if all judged rows are
//! good of rows with each word of the inputs. Every cycle of a workload from the latency on is good. A design is sound or
//! has a first rule that fails (a classical proof: which of the two is not said).
//!
//! By: the laws `one_answer`, `some_answer`, `any_workers`, `answers_have_causes`, `refusals_are_due`, `lines_are_fixed`,
//! `one_net`, `one_circuit`, `circuits_are_sound`, `circuits_check_good`, `good_outputs_recall`, `good_rows_serve`,
//! `workloads_are_good`, `has_verdict`.
#![tactic(auto)]

mod answers;
mod circuits;
mod designs;

pub use answers::{
    answers_have_causes, any_workers, lines_are_fixed, one_answer, refusals_are_due, some_answer,
    workloads_are_good,
};
pub use circuits::{
    circuits_are_sound, circuits_check_good, good_outputs_recall, good_rows_serve, one_circuit,
    one_net,
};
pub use designs::has_verdict;
