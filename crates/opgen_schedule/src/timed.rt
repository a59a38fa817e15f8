//! Slots in given cycles, at the earliest times.
ghost use Rattle.std.specs.Prelude.{◌≡◌, length, IfOk};
ghost use Rattle.opgen_schedule.specs.Graph.{IsOrdered};
ghost use Rattle.opgen_schedule.specs.Moves.{slot_in, timed};

use crate::graph::{Role, Vertex};
use crate::schedule::latest;
use crate::slot::Slot;
use std::alloc::{AllocError, Global};

/// The slot of a vertex in a cycle, after operands of which the latest stands here.
pub(crate) fn slot_in(cycle: usize, last: Slot, vertex: &Vertex) -> Slot
    ensures { result ≡ slot_in cycle last vertex.now }
{
    let before = if last.cycle == cycle { last.time } else { 0 };
    let time = match vertex.role {
        Role::Start | Role::Hold => 0,
        Role::Cell => vertex.delay.saturating_add(before),
    };
    Slot { cycle, time }
}

/// The slots of a graph in these cycles, one for each vertex, at the earliest times in picoseconds.
pub fn timed_slots(
    alloc: Global,
    graph: &[Vertex],
    cycles: &[usize],
) -> Result<Vec<Slot>, AllocError>
    requires ordered { IsOrdered graph.now }
    requires cycles { length cycles.now ≡ length graph.now }
    ensures slots { IfOk result (λ v. v.items ≡ timed graph.now cycles.now) }
    ensures one_each { IfOk result (λ v. length v.items ≡ length graph.now) }
{
    let mut slots = Vec::new(alloc);
    'graph: for (place, vertex) in graph.iter().enumerate() {
        let last = latest(&slots, vertex.reads.as_slice());
        slots.push(slot_in(cycles[place], last, vertex))?;
    }
    Ok(slots)
}
