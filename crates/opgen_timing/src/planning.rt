//! Plans a net for a target and a period, with its sums cut to the period.
ghost use Rattle.std.specs.Prelude.{ℕ, ◌≡◌, ◌≤◌, IfOk};
ghost use Rattle.opgen_net.specs.declared.cell.Class.{Class};
ghost use Rattle.opgen_net.specs.Named.{IsNamed};
ghost use Rattle.opgen_net.specs.Valid.{IsValid};
ghost use Rattle.opgen_pipe.specs.declared.placing.Placing.TheVariants.{Few};
ghost use Rattle.opgen_pipe.specs.Cells.{design_cells};
ghost use Rattle.opgen_pipe.specs.Placed.{register_bits};
ghost use Rattle.opgen_pipe.specs.Planned.{IsCause, slots_by, slots_of};
ghost use Rattle.opgen_pipe.specs.Timed.{IsInTime, IsLeastLatency};
ghost use Rattle.opgen_schedule.specs.Stage.{slot_at};
ghost use Rattle.opgen_target.specs.Ledger.{width_sum};
ghost use Rattle.opgen_timing.specs.Nets.{net_for};
ghost use Rattle.opgen_timing.specs.Outcomes.{IsCauseOfCut, IsOutcomeOfCut};

use crate::nets::{least_need, net_for};
use opgen_net::Net;
use opgen_pipe::{Placing, PlanFault, Planned, Timing, plan};
use opgen_target::Target;
use std::alloc::Global;

// Why a net has no plan for a target, if its net for the period has none for this cause.
fn fault_of(alloc: Global, net: &Net, target: &Box<dyn Target>, cause: PlanFault) -> PlanFault
    requires { IsValid net.now }
    ensures { (period : ℕ) → IsCause (net_for (delays target.now) period net.now) Few (delays target.now) period cause
        → IsCauseOfCut net.now (delays target.now) period result }
{
    match cause {
        PlanFault::PeriodTooShort { .. } => match least_need(alloc, net, target) {
            Ok(need) => PlanFault::PeriodTooShort { need },
            Err(_) => PlanFault::Memory,
        },
        PlanFault::TooLarge | PlanFault::Memory => cause,
    }
}

/// The design of a net for a target and a period, under a name: with the port of a clock enable where it is asked for. Sums are as
/// wide as what they add; if the net does not fit the period so, they are cut to the greatest width that fits.
///
/// The design is that of `opgen_pipe::plan` for the net with its sums cut, placed so that the registers have few bits. A period that is too short is returned with the need in
/// picoseconds of the net whose sums have at most 4 bits. After an error the ledger may hold anything.
pub fn cut_and_plan(
    alloc: Global,
    net: &Net,
    name: &str,
    enable: bool,
    target: &mut Box<dyn Target>,
    period: u32,
) -> Result<Planned, PlanFault>
    requires valid { IsValid net.now }
    requires named { IsNamed name.now net.now }
    ensures outcome { IsOutcomeOfCut name.now enable net.now (delays target.old) period result }
    ensures fits { IfOk result (λ p. IsInTime name.now enable (net_for (delays target.old) period net.now) (delays target.old) period
        (slot_at (slots_by Few (delays target.old) period (net_for (delays target.old) period net.now))) p) }
    ensures least { IfOk result (λ p. IsLeastLatency (delays target.old) period (net_for (delays target.old) period net.now) p.latency) }
    ensures few { IfOk result (λ _. register_bits (net_for (delays target.old) period net.now) (slot_at (slots_by Few (delays target.old) period (net_for (delays target.old) period net.now)))
        ≤ register_bits (net_for (delays target.old) period net.now) (slot_at (slots_of (delays target.old) period (net_for (delays target.old) period net.now)))) }
    ensures ledger { IfOk result (λ p. (class : Class) → ledger target.new class ≡ width_sum (design_cells (net_for (delays target.old) period net.now)
        (slot_at (slots_by Few (delays target.old) period (net_for (delays target.old) period net.now)))) class) }
    ensures target_name { target_name target.new ≡ target_name target.old }
    ensures delays { delays target.new ≡ delays target.old }
    ensures adjustable { adjustable target.new ≡ adjustable target.old }
{
    let Ok(made) = net_for(alloc, net, target, period) else {
        return Err(PlanFault::Memory);
    };
    let timing = Timing {
        period,
        placing: Placing::Few,
    };
    match plan(alloc, &made, name, enable, target, timing) {
        Ok(planned) => Ok(planned),
        Err(cause) => Err(fault_of(alloc, net, target, cause)),
    }
}
