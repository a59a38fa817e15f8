//! Lists what a design has for each node of a net: width, slot, number of copies and first signal.
ghost use Rattle.std.specs.Prelude.{◌≡◌, ◌≤◌, ◌^◌, IfOk};
ghost use Rattle.opgen_net.specs.Valid.{widths as widths_of};
ghost use Rattle.opgen_schedule.specs.Stage.{slot_at};
ghost use Rattle.opgen_pipe.specs.Copies.{signal_count};
ghost use Rattle.opgen_pipe.specs.Counts.{AreCopies, AreSlots};
ghost use Rattle.opgen_pipe.specs.Standings.{standings};

use crate::standing::Standing;
use opgen_net::Net;
use opgen_schedule::{Slot, is_constant};
use std::alloc::{AllocError, Global};

/// Where each node of a net stands in its design.
pub(crate) fn standings(
    alloc: Global,
    net: &Net,
    widths: &[u32],
    slots: &[Slot],
    copies: &[usize],
) -> Result<Vec<Standing>, AllocError>
    requires widths { widths.now ≡ widths_of net.now.nodes }
    requires slots { AreSlots net.now slots.now }
    requires copies { AreCopies net.now slots.now copies.now }
    requires few { signal_count net.now (slot_at slots.now) ≤ 2 ^ 32 }
    ensures { IfOk result (λ v. v.items ≡ standings net.now (slot_at slots.now)) }
{
    let nodes = net.nodes.as_slice();
    let mut standings = Vec::new(alloc);
    let mut next: usize = 0;
    'nodes: for (place, node) in nodes.iter().enumerate() {
        standings.push(Standing {
            width: widths[place],
            constant: is_constant(node),
            slot: slots[place],
            copies: copies[place],
            signal: next,
        })?;
        next = next + 1 + copies[place];
    }
    Ok(standings)
}
