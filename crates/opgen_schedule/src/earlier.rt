//! Moves the nodes of a net to earlier cycles, from the first to the last.
ghost use Rattle.std.specs.Prelude.{◌≡◌, ◌<◌, ◌≤◌, ◌+◌, ◌*◌, All, [], length, IfOk};
ghost use Rattle.opgen_schedule.specs.Frames.{IsFrame};
ghost use Rattle.opgen_schedule.specs.Moves.{cycles_of, earlier, earlier_on, earlier_slot, goes_earlier};

use crate::frame::Frame;
use crate::graph::Vertex;
use crate::lasts::{copied, keeping, read_all};
use crate::schedule::latest;
use crate::slot::Slot;
use crate::timed::slot_in;
use std::alloc::{AllocError, Global};

// Whether a vertex goes from a cycle to that of the latest of its operands.
fn goes_earlier(costs: &[u64], lasts: &[usize], cycle: usize, last: Slot, vertex: &Vertex) -> bool
    requires reads { All (λ j. j < length costs.now) vertex.now.reads }
    requires lasts { length lasts.now ≡ length costs.now }
    ensures { result ≡ goes_earlier costs.now lasts.now cycle last vertex.now }
{
    last.cycle < cycle
        && 12 * u64::from(vertex.width)
            <= keeping(costs, lasts, last.cycle + 1, vertex.reads.as_slice())
}

// The slot of a vertex that stood in a cycle.
fn earlier_slot(
    room: u32,
    costs: &[u64],
    lasts: &[usize],
    cycle: usize,
    last: Slot,
    vertex: &Vertex,
) -> Slot
    requires reads { All (λ j. j < length costs.now) vertex.now.reads }
    requires lasts { length lasts.now ≡ length costs.now }
    ensures { result ≡ earlier_slot room costs.now lasts.now cycle last vertex.now }
{
    if !goes_earlier(costs, lasts, cycle, last, vertex) {
        return slot_in(cycle, last, vertex);
    }
    let there = slot_in(last.cycle, last, vertex);
    if there.time <= room {
        there
    } else {
        slot_in(last.cycle + 1, last, vertex)
    }
}

// The slots of a graph that stood in these cycles.
fn earlier_slots(
    alloc: Global,
    frame: &Frame,
    costs: &[u64],
    cycles: &[usize],
) -> Result<Vec<Slot>, AllocError>
    requires frame { IsFrame frame.now }
    requires costs { length costs.now ≡ length frame.now.graph }
    requires cycles { length cycles.now ≡ length frame.now.graph }
    ensures slots { IfOk result (λ v. v.items ≡ earlier_on frame.now.room costs.now cycles.now frame.now.lasts [] frame.now.graph) }
    ensures one_each { IfOk result (λ v. length v.items ≡ length frame.now.graph) }
{
    let mut lasts = copied(alloc, frame.lasts.as_slice())?;
    let mut slots = Vec::new(alloc);
    'graph: for (place, vertex) in frame.graph.as_slice().iter().enumerate() {
        let reads = vertex.reads.as_slice();
        let last = latest(&slots, reads);
        let own = earlier_slot(frame.room, costs, &lasts, cycles[place], last, vertex);
        read_all(own.cycle, &mut lasts, reads);
        slots.push(own)?;
    }
    Ok(slots)
}

/// The cycles of slots.
pub fn cycles_of(alloc: Global, slots: &[Slot]) -> Result<Vec<usize>, AllocError>
    ensures { IfOk result (λ v. v.items ≡ cycles_of slots.now) }
{
    let mut cycles = Vec::new(alloc);
    'slots: for slot in slots {
        cycles.push(slot.cycle)?;
    }
    Ok(cycles)
}

/// Cycles in which each vertex that makes the costs no higher has gone to its operands.
pub(crate) fn earlier(
    alloc: Global,
    frame: &Frame,
    costs: &[u64],
    cycles: &[usize],
) -> Result<Vec<usize>, AllocError>
    requires frame { IsFrame frame.now }
    requires costs { length costs.now ≡ length frame.now.graph }
    requires cycles { length cycles.now ≡ length frame.now.graph }
    ensures cycles { IfOk result (λ v. v.items ≡ earlier frame.now costs.now cycles.now) }
    ensures one_each { IfOk result (λ v. length v.items ≡ length frame.now.graph) }
{
    let slots = earlier_slots(alloc, frame, costs, cycles)?;
    cycles_of(alloc, &slots)
}
