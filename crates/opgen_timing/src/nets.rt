//! The net that is made of another for a table of delays and a period: its sums are cut if that is needed.
ghost use Rattle.std.specs.Prelude.{◌≡◌, ◌≤◌, IfOk};
ghost use Rattle.opgen_num.specs.declared.format.TheConstants.{MAX_WIDTH};
ghost use Rattle.opgen_cuts.specs.Recipe.{cut_net};
ghost use Rattle.opgen_cuts.specs.Same.{IsSameCircuit};
ghost use Rattle.opgen_net.specs.Valid.{IsValid};
ghost use Rattle.opgen_pipe.specs.Cells.{need};
ghost use Rattle.opgen_timing.specs.Nets.{net_for};

use crate::widths::{LEAST_WIDTH, sum_width};
use opgen_cuts::cut_sums;
use opgen_net::Net;
use opgen_num::{MAX_WIDTH, Memory};
use opgen_pipe::need;
use opgen_target::Target;
use std::alloc::Global;

/// The net for a target and a period: its sums are as wide as what they add, and cut to the period if it does not fit so.
pub(crate) fn net_for(
    alloc: Global,
    net: &Net,
    target: &Box<dyn Target>,
    period: u32,
) -> Result<Net, Memory>
    requires { IsValid net.now }
    ensures net { IfOk result (λ made. made ≡ net_for (delays target.now) period net.now) }
    ensures valid { IfOk result IsValid }
    ensures same { IfOk result (IsSameCircuit net.now) }
{
    let whole = cut_sums(alloc, net, MAX_WIDTH)?;
    if need(alloc, &whole, target)? <= u64::from(period) {
        Ok(whole)
    } else {
        cut_sums(alloc, net, sum_width(target, period))
    }
}

/// The shortest period in picoseconds that each node of a net takes whose sums have at most 4 bits.
pub(crate) fn least_need(alloc: Global, net: &Net, target: &Box<dyn Target>) -> Result<u64, Memory>
    requires { IsValid net.now }
    ensures { IfOk result (λ n. n ≡ need (delays target.now) (cut_net 4 net.now)) }
{
    let narrow = cut_sums(alloc, net, LEAST_WIDTH)?;
    Ok(need(alloc, &narrow, target)?)
}
