//! Schedules of a net under a table of delays: the clock cycle of each node, and its time within the cycle.
//!
//! Proved: The cycle and the time of each node under a table of delays, a setup time and a period. That schedule fits the
//! period, and no schedule that fits has a smaller latency. In a schedule that fits, each path of cells within a cycle ends a
//! setup time before the end of the cycle. Two proposals of cycles in which a net may have fewer registers, the times in
//! given cycles, and the test of a schedule are what their definitions say.
//!
//! By: `stage`, `latency`, `greatest_time`, `fits`, `timed_slots`, `moved_later`, `moved_back`; for every schedule that fits, the law
//! `paths_fit` of `opgen_part_laws`.
#![tactic(auto)]

mod costs;
mod earlier;
mod fitting;
mod frame;
mod graph;
mod lasts;
mod later;
mod reads;
mod schedule;
mod slot;
mod timed;

pub use costs::Cost;
pub use earlier::cycles_of;
pub use fitting::fits;
pub use frame::{Frame, moved_back, moved_later};
pub use graph::{Role, Vertex, timing_graph};
pub use lasts::output_reads;
pub use later::Seat;
pub use reads::reads_of;
pub use schedule::{greatest, greatest_time, is_constant, latency, stage};
pub use slot::Slot;
pub use timed::timed_slots;
