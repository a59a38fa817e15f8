//! Lays out a net for a target and a period: what its design needs of each node, found once, or why there is no such design.
ghost use Rattle.std.specs.Prelude.{◌≡◌, length, IfOk};
ghost use Rattle.opgen_net.specs.Valid.{IsValid, widths as widths_of};
ghost use Rattle.opgen_target.specs.Delays.{Delays, setup as setup_of};
ghost use Rattle.opgen_pipe.specs.Cells.{net_delays};
ghost use Rattle.opgen_pipe.specs.Layouts.{IsLaidOut, IsLayout};

use crate::cells::{net_delays, setup_time};
use crate::counts::{copies, signal_count};
use crate::fewest::place;
use crate::placing::Timing;
use crate::planning::PlanFault;
use crate::standing::Standing;
use crate::standings::standings;
use opgen_design::MAX_SIGNALS;
use opgen_net::Net;
use opgen_schedule::{greatest, greatest_time, latency};
use opgen_target::Target;
use std::alloc::{AllocError, Global};

/// What the design of a net at a schedule needs: where each node stands; the latency in cycles; and what the longest cycle leaves
/// of the period, in picoseconds.
#[derive(Drop)]
pub struct Layout {
    pub standings: Vec<Standing>,
    pub latency: usize,
    pub slack: u64,
}

// The layout of a net, over the widths of its nodes, over these delays of its nodes.
fn lay_out_for(
    alloc: Global,
    net: &Net,
    widths: &[u32],
    delays: &[u32],
    setup: u32,
    timing: Timing,
) -> Result<Layout, PlanFault>
    requires valid { IsValid net.now }
    requires widths { widths.now ≡ widths_of net.now.nodes }
    requires delays { length delays.now ≡ length net.now.nodes }
    ensures layout { IfOk result (IsLayout net.now) }
    ensures outcome { (table : Delays) → delays.now ≡ net_delays table net.now → setup ≡ setup_of table → IsLaidOut net.now timing.placing table timing.period result }
{
    let need = u64::from(greatest(delays)) + u64::from(setup);
    if need > u64::from(timing.period) {
        return Err(PlanFault::PeriodTooShort { need });
    }
    let nodes = net.nodes.as_slice();
    let slots = place(alloc, net, widths, delays, setup, timing)?;
    let slack = u64::from((timing.period - setup).saturating_sub(greatest_time(&slots)));
    let latency = latency(nodes, &slots, net.outputs.as_slice());
    let copies = copies(alloc, net, &slots, latency)?;
    if signal_count(&copies) > MAX_SIGNALS {
        return Err(PlanFault::TooLarge);
    }
    let standings = standings(alloc, net, widths, &slots, &copies)?;
    Ok(Layout {
        standings,
        latency,
        slack,
    })
}

/// The layout of a net, over the widths of its nodes, for a period and a placing under the delays of the target.
pub(crate) fn lay_out(
    alloc: Global,
    net: &Net,
    widths: &[u32],
    target: &Box<dyn Target>,
    timing: Timing,
) -> Result<Layout, PlanFault>
    requires valid { IsValid net.now }
    requires widths { widths.now ≡ widths_of net.now.nodes }
    ensures layout { IfOk result (IsLayout net.now) }
    ensures outcome { IsLaidOut net.now timing.placing (delays target.now) timing.period result }
{
    let delays = net_delays(alloc, net, widths, target)?;
    lay_out_for(alloc, net, widths, &delays, setup_time(target), timing)
}
