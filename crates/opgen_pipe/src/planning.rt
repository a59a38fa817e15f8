//! Plans a net for a target and a period: schedule, design, latency, slack and cells, or why no such design exists.
ghost use Rattle.std.specs.Prelude.{◌≡◌, ◌≤◌, IfOk};
ghost use Rattle.opgen_net.specs.Named.{IsNamed};
ghost use Rattle.opgen_net.specs.declared.cell.Class.{Class};
ghost use Rattle.opgen_schedule.specs.Stage.{slot_at};
ghost use Rattle.opgen_net.specs.Valid.{IsValid};
ghost use Rattle.opgen_target.specs.Ledger.{width_sum};
ghost use Rattle.opgen_pipe.specs.Cells.{design_cells};
ghost use Rattle.opgen_pipe.specs.Placed.{register_bits};
ghost use Rattle.opgen_pipe.specs.Planned.{IsOutcome, slots_by, slots_of};
ghost use Rattle.opgen_pipe.specs.Timed.{IsInTime, IsLeastLatency};

use crate::cells::charge_design;
use crate::layout::lay_out;
use crate::pipelined::design;
use crate::placing::Timing;
use crate::widths::node_widths;
use opgen_design::Design;
use opgen_net::Net;
use opgen_target::Target;
use std::alloc::{AllocError, Global};
use thiserror::Error;

/// A design with its latency in cycles, its slack in picoseconds, and how many bits of cells of each class it has, in the
/// order of the classes.
#[derive(Drop)]
pub struct Planned {
    pub design: Design,
    pub latency: u32,
    pub slack: u64,
    pub cells: [u64; 6],
}

/// Why a net has no design for a target and a period.
#[derive(Clone, Copy, Debug, PartialEq, Eq, Error)]
pub enum PlanFault {
    /// The shortest period for which there is a schedule.
    #[error("a period of {need} picoseconds is needed")]
    PeriodTooShort { need: u64 },
    #[error("too many signals")]
    TooLarge,
    #[error("out of memory")]
    Memory,
}

impl From<AllocError> for PlanFault {
    ghost use Rattle.std.specs.Prelude.{◌≡◌};
    ghost use Rattle.opgen_pipe.specs.declared.planning.PlanFault.TheVariants as fault;

    ghost from_gives = { λ _ f. f ≡ fault.Memory };

    fn from(_refused: AllocError) -> PlanFault {
        PlanFault::Memory
    }
}

/// The design of a net for a target and a period, under a name: with the port of a clock enable where it is asked for.
///
/// Each node stands as early as the delays of the target allow, or so that the registers have few bits, and no more than where each is
/// as early: no path of cells takes longer than the period, and no schedule that fits has a smaller latency. The design's cells are charged to the target's ledger, which is
/// cleared before. After an error the ledger may hold anything.
pub fn plan(
    alloc: Global,
    net: &Net,
    name: &str,
    enable: bool,
    target: &mut Box<dyn Target>,
    timing: Timing,
) -> Result<Planned, PlanFault>
    requires valid { IsValid net.now }
    requires named { IsNamed name.now net.now }
    ensures outcome { IsOutcome name.now enable net.now timing.placing (delays target.old) timing.period result }
    ensures fits { IfOk result (λ p. IsInTime name.now enable net.now (delays target.old) timing.period (slot_at (slots_by timing.placing (delays target.old) timing.period net.now)) p) }
    ensures least { IfOk result (λ p. IsLeastLatency (delays target.old) timing.period net.now p.latency) }
    ensures few { IfOk result (λ _. register_bits net.now (slot_at (slots_by timing.placing (delays target.old) timing.period net.now)) ≤ register_bits net.now (slot_at (slots_of (delays target.old) timing.period net.now))) }
    ensures ledger { IfOk result (λ p. (class : Class) → ledger target.new class ≡ width_sum (design_cells net.now (slot_at (slots_by timing.placing (delays target.old) timing.period net.now))) class) }
    ensures target_name { target_name target.new ≡ target_name target.old }
    ensures delays { delays target.new ≡ delays target.old }
    ensures adjustable { adjustable target.new ≡ adjustable target.old }
{
    let widths = node_widths(alloc, net)?;
    let layout = lay_out(alloc, net, &widths, target, timing)?;
    let cells = charge_design(alloc, net, &widths, &layout, target)?;
    let design = design(alloc, net, &widths, name, enable, &layout)?;
    Ok(Planned {
        design,
        latency: layout.latency as u32,
        slack: layout.slack,
        cells,
    })
}
