//! The shortest period for which a net has a schedule.
ghost use Rattle.std.specs.Prelude.{◌≡◌, IfOk};
ghost use Rattle.opgen_net.specs.Valid.{IsValid};
ghost use Rattle.opgen_pipe.specs.Cells.{need};

use crate::cells::{net_delays, setup_time};
use crate::widths::node_widths;
use opgen_net::Net;
use opgen_schedule::greatest;
use opgen_target::Target;
use std::alloc::{AllocError, Global};

/// The shortest period in picoseconds for which there is a schedule of a net on a target: the greatest delay of a node, and the setup
/// time.
pub fn need(alloc: Global, net: &Net, target: &Box<dyn Target>) -> Result<u64, AllocError>
    requires { IsValid net.now }
    ensures { IfOk result (λ n. n ≡ need (delays target.now) net.now) }
{
    let widths = node_widths(alloc, net)?;
    let delays = net_delays(alloc, net, &widths, target)?;
    Ok(u64::from(greatest(&delays)) + u64::from(setup_time(target)))
}
