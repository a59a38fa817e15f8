//! Nets whose sums are cut to a period, and their plans.
//!
//! Proved: The net is the one that is stated of a net, a table of delays and a period. It is valid and the same circuit. The width
//! at which its sums are cut is the greatest at which they fit the period. Its plan is a design with its latency, slack and cells;
//! or the period is too short, with the need of the net whose sums have at most 4 bits, or there are too many signals, each exactly
//! if it holds. The schedule fits the period, and no schedule of that net that fits has a smaller latency. Its registers have at most
//! as many bits as those of the schedule of one pass over that net. The ledger is that of the design's cells; the target's name,
//! delays and kind stay.
//!
//! By: `cut_and_plan`; the law `cut_nets_are_same`.
#![tactic(auto)]

mod laws;
mod nets;
mod planning;
mod widths;

pub use laws::cut_nets_are_same;
pub use planning::cut_and_plan;
