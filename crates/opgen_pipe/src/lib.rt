//! The pipelined design of a net: each node in its cycle, with a register for each cycle that a word is kept.
//!
//! Proved: The design of a net at a period, with its latency, slack and cells; or that the period is too short, with the shortest that
//! is not, or that there are too many signals, each exactly if it holds. The design's schedule fits the period: each path of cells
//! within a cycle ends a setup time before the end of the cycle. No schedule of the net that fits has a smaller latency, and its
//! registers have at most as many bits as those of the schedule of one pass. The ledger is that of the design's cells; the target's
//! name, delays and kind stay. For every valid net with names that a design may have, and every schedule that fits: the design is
//! sound, of the subset's form, can be written, and has a run over all inputs. In every run (with an enable: in the cycles in which it
//! is 1), a signal of cycle c of the schedule has the word that its node had c cycles before, and each output has its slice's word of
//! the latency before; constants and the cycles before the latency are included.
//!
//! By: `plan`, `need`; the law `run_follows_flow`; of `opgen_part_laws` the laws `design_is_sound`, `design_is_shaped`,
//! `design_is_writable`, `design_runs`.
#![tactic(auto)]

mod cells;
mod counts;
mod drivers;
mod fewest;
mod laws;
mod layout;
mod pipelined;
mod placing;
mod planning;
mod ports;
mod reading;
mod shortest;
mod signals;
mod standing;
mod standings;
mod widths;
mod zeros;

pub use laws::run_follows_flow;
pub use placing::{Placing, Timing};
pub use planning::{PlanFault, Planned, plan};
pub use shortest::need;
pub use standing::Standing;
