//! Tests whether slots of a timing graph are a schedule that fits.
ghost use Rattle.std.specs.Prelude.{◌≡◌, ◌<◌, All, length, nat_le};
ghost use Rattle.std.specs.List.{list_all};
ghost use Rattle.opgen_schedule.specs.Fitting.{comes_first, does_fit, fits_as};
ghost use Rattle.opgen_schedule.specs.Graph.{IsOrdered};
ghost use Rattle.opgen_schedule.specs.Stage.{slot_at};

use crate::graph::{Role, Vertex};
use crate::slot::Slot;

// Whether an operand in one slot is there in time for a node in another.
fn comes_first(delay: u32, own: Slot, read: Slot) -> bool
    ensures { result ≡ comes_first delay own read }
{
    if read.cycle == own.cycle {
        u64::from(read.time) + u64::from(delay) <= u64::from(own.time)
    } else {
        read.cycle < own.cycle
    }
}

// Whether all operands are there in time.
fn come_first(delay: u32, own: Slot, slots: &[Slot], reads: &[usize]) -> bool
    requires { All (λ j. j < length slots.now) reads.now }
    ensures { result ≡ list_all (λ j. comes_first delay own (slot_at slots.now j)) reads.now }
{
    'reads: for read in reads {
        if !comes_first(delay, own, slots[*read]) {
            return false;
        }
    }
    true
}

// Whether no operand is in a later cycle.
fn are_no_later(cycle: usize, slots: &[Slot], reads: &[usize]) -> bool
    requires { All (λ j. j < length slots.now) reads.now }
    ensures { result ≡ list_all (λ j. nat_le (slot_at slots.now j).cycle cycle) reads.now }
{
    'reads: for read in reads {
        if slots[*read].cycle > cycle {
            return false;
        }
    }
    true
}

// Whether a vertex fits in a slot, where a cycle has so much time for cells.
fn vertex_fits(room: u32, slots: &[Slot], own: Slot, vertex: &Vertex) -> bool
    requires { All (λ j. j < length slots.now) vertex.now.reads }
    ensures { result ≡ fits_as vertex.now.role room vertex.now.delay slots.now own vertex.now.reads }
{
    let reads = vertex.reads.as_slice();
    match vertex.role {
        Role::Start => own.cycle == 0 && own.time == 0,
        Role::Hold => own.time == 0 && are_no_later(own.cycle, slots, reads),
        Role::Cell => {
            vertex.delay <= own.time
                && own.time <= room
                && come_first(vertex.delay, own, slots, reads)
        }
    }
}

/// Whether slots, one for each vertex, are a schedule of the graph where a cycle has so much time for cells, in picoseconds; its cycles
/// are at most the number of vertices.
pub fn fits(room: u32, graph: &[Vertex], slots: &[Slot]) -> bool
    requires slots { length slots.now ≡ length graph.now }
    requires reads { IsOrdered graph.now }
    ensures { result ≡ does_fit room graph.now slots.now }
{
    'graph: for (place, vertex) in graph.iter().enumerate() {
        let own = slots[place];
        if own.cycle > slots.len() || !vertex_fits(room, slots, own, vertex) {
            return false;
        }
    }
    true
}
