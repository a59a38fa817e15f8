//! Moves the nodes of a net to later cycles, from the last to the first.
ghost use Rattle.std.specs.Prelude.{◌≡◌, ◌<◌, ◌≤◌, ◌+◌, ◌*◌, All, length, map, IfOk};
ghost use Rattle.std.specs.List.{fold};
ghost use Rattle.opgen_schedule.specs.Frames.{IsFrame};
ghost use Rattle.opgen_schedule.specs.Graph.{IsOrdered};
ghost use Rattle.opgen_schedule.specs.Moves.{goes_later, later, later_slot, later_to, lasts_on, moves, read_by, seat_at, seated, seats_of, sooner};

use crate::frame::Frame;
use crate::graph::{Role, Vertex};
use crate::lasts::{copied, keeping, read_all};
use crate::slot::Slot;
use crate::timed::slot_in;
use std::alloc::{AllocError, Global};

/// The cycle of a vertex, and the first of its readers: where it is read first, and how long cells take from there at most.
#[derive(Clone, Copy, Debug, PartialEq, Eq)]
pub struct Seat {
    pub cycle: usize,
    pub first: Slot,
}

// The first of two readers, and the longer one where they are in one cycle.
fn sooner(one: Slot, other: Slot) -> Slot
    ensures { result ≡ sooner one other }
{
    if one.cycle < other.cycle {
        return one;
    }
    if other.cycle < one.cycle {
        return other;
    }
    if one.time < other.time { other } else { one }
}

// Notes that a vertex is read from a slot.
fn read_by(slot: Slot, seats: &mut [Seat], read: usize)
    requires { read < length seats.old }
    ensures { seats.new ≡ read_by slot seats.old read }
{
    let seat = seats[read];
    seats[read] = Seat {
        cycle: seat.cycle,
        first: sooner(slot, seat.first),
    };
}

// Puts a vertex into a slot, and notes it for what it reads.
fn take_seat(slot: Slot, place: usize, vertex: &Vertex, seats: &mut [Seat])
    requires there { place < length seats.old }
    requires reads { All (λ j. j < length seats.old) vertex.now.reads }
    ensures { seats.new ≡ seated slot place vertex.now seats.old }
{
    let first = seats[place].first;
    seats[place] = Seat {
        cycle: slot.cycle,
        first,
    };
    'reads: for read in vertex.reads.as_slice() {
        read_by(slot, seats, *read);
    }
}

// Whether a vertex may be in another cycle than it is.
fn moves(role: Role) -> bool
    ensures { result ≡ moves role }
{
    match role {
        Role::Start => false,
        Role::Hold | Role::Cell => true,
    }
}

// Whether a vertex goes to the cycle of its first reader.
fn goes_later(costs: &[u64], lasts: &[usize], last: usize, seat: Seat, vertex: &Vertex) -> bool
    requires reads { All (λ j. j < length costs.now) vertex.now.reads }
    requires lasts { length lasts.now ≡ length costs.now }
    ensures { result ≡ goes_later costs.now lasts.now last seat vertex.now }
{
    let end = seat.first.cycle;
    moves(vertex.role)
        && seat.cycle < end
        && end <= last
        && keeping(costs, lasts, end, vertex.reads.as_slice()) <= 12 * u64::from(vertex.width)
}

// The slot of a vertex in this seat.
fn later_slot(
    room: u32,
    costs: &[u64],
    lasts: &[usize],
    last: usize,
    seat: Seat,
    vertex: &Vertex,
) -> Slot
    requires reads { All (λ j. j < length costs.now) vertex.now.reads }
    requires lasts { length lasts.now ≡ length costs.now }
    ensures { result ≡ later_slot room costs.now lasts.now last seat vertex.now }
{
    if !goes_later(costs, lasts, last, seat, vertex) {
        return slot_in(seat.cycle, seat.first, vertex);
    }
    let there = slot_in(seat.first.cycle, seat.first, vertex);
    if there.time <= room {
        there
    } else {
        slot_in(seat.first.cycle - 1, seat.first, vertex)
    }
}

// The seats of vertices in these cycles, which are read first in that of the latency.
fn seats(alloc: Global, latency: usize, cycles: &[usize]) -> Result<Vec<Seat>, AllocError>
    ensures { IfOk result (λ v. v.items ≡ seats_of latency cycles.now) }
{
    let first = Slot {
        cycle: latency,
        time: 0,
    };
    let mut seats = Vec::new(alloc);
    'cycles: for cycle in cycles {
        seats.push(Seat {
            cycle: *cycle,
            first,
        })?;
    }
    Ok(seats)
}

// The cycles of seats.
fn cycles_of(alloc: Global, seats: &[Seat]) -> Result<Vec<usize>, AllocError>
    ensures { IfOk result (λ v. v.items ≡ map (λ s. s.cycle) seats.now) }
{
    let mut cycles = Vec::new(alloc);
    'seats: for seat in seats {
        cycles.push(seat.cycle)?;
    }
    Ok(cycles)
}

// In which cycles words are read last, by outputs and by vertices in these cycles.
fn last_reads(alloc: Global, frame: &Frame, cycles: &[usize]) -> Result<Vec<usize>, AllocError>
    requires frame { IsFrame frame.now }
    requires cycles { length cycles.now ≡ length frame.now.graph }
    ensures lasts { IfOk result (λ v. v.items ≡ lasts_on cycles.now frame.now.lasts 0 frame.now.graph) }
    ensures one_each { IfOk result (λ v. length v.items ≡ length frame.now.graph) }
{
    let mut lasts = copied(alloc, frame.lasts.as_slice())?;
    'graph: for (place, vertex) in frame.graph.as_slice().iter().enumerate() {
        read_all(cycles[place], &mut lasts, vertex.reads.as_slice());
    }
    Ok(lasts)
}

// Moves the vertices from the last to the first.
fn move_later(room: u32, costs: &[u64], graph: &[Vertex], seats: &mut [Seat], lasts: &mut [usize])
    requires graph { IsOrdered graph.now }
    requires costs { length costs.now ≡ length graph.now }
    requires seats { length seats.old ≡ length graph.now }
    requires lasts { length lasts.old ≡ length graph.now }
    ensures { seats.new ≡ later_to room costs.now graph.now (length graph.now) seats.old lasts.old }
{
    let mut place = graph.len();
    'graph: while place > 0 {
        place -= 1;
        let vertex = &graph[place];
        let own = later_slot(room, costs, lasts, lasts[place], seats[place], vertex);
        take_seat(own, place, vertex, seats);
        read_all(own.cycle, lasts, vertex.reads.as_slice());
    }
}

/// Cycles in which each vertex that makes the costs no higher has gone to its first reader.
pub(crate) fn later(
    alloc: Global,
    frame: &Frame,
    costs: &[u64],
    cycles: &[usize],
) -> Result<Vec<usize>, AllocError>
    requires frame { IsFrame frame.now }
    requires costs { length costs.now ≡ length frame.now.graph }
    requires cycles { length cycles.now ≡ length frame.now.graph }
    ensures cycles { IfOk result (λ v. v.items ≡ later frame.now costs.now cycles.now) }
    ensures one_each { IfOk result (λ v. length v.items ≡ length frame.now.graph) }
{
    let mut lasts = last_reads(alloc, frame, cycles)?;
    let mut seats = seats(alloc, frame.latency, cycles)?;
    move_later(
        frame.room,
        costs,
        frame.graph.as_slice(),
        &mut seats,
        &mut lasts,
    );
    cycles_of(alloc, &seats)
}
