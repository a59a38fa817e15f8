//! Makes the schedule of a net: places each node as early as its operands and the period allow, and finds the latency.
ghost use Rattle.std.specs.Prelude.{◌≡◌, ◌≤◌, ◌<◌, ◌+◌, ◌^◌, ℕ, All, [], length, IfOk, if◌then◌else◌};
ghost use Rattle.opgen_net.specs.Valid.{AllMayStand};
ghost use Rattle.opgen_schedule.specs.Reads.{reads_of, is_constant, is_constant_at};
ghost use Rattle.opgen_schedule.specs.Laws.{IsLeast, PathsEnd};
ghost use Rattle.opgen_schedule.specs.Schedule.{greatest, greatest_time, latency, Fits};
ghost use Rattle.opgen_schedule.specs.Stage.{after, latest, later, slot_at, slot_of, stage, start};

use crate::reads;
use crate::slot::Slot;
use opgen_net::{Node, Output};
use std::alloc::{AllocError, Global};

fn slot_at(slots: &[Slot], node: usize) -> Slot
    requires { node < length slots.now }
    ensures { result ≡ slot_at slots.now node }
{
    slots[node]
}

// The later of two slots.
fn later(one: Slot, other: Slot) -> Slot
    ensures { result ≡ later one other }
{
    if one.cycle < other.cycle {
        return other;
    }
    if other.cycle < one.cycle {
        return one;
    }
    if one.time < other.time { other } else { one }
}

/// The latest slot of some nodes.
pub(crate) fn latest(slots: &[Slot], nodes: &[usize]) -> Slot
    requires { All (λ j. j < length slots.now) nodes.now }
    ensures { result ≡ latest start slots.now nodes.now }
{
    let mut last = Slot { cycle: 0, time: 0 };
    'nodes: for node in nodes {
        last = later(last, slot_at(slots, *node));
    }
    last
}

// The slot of cells after operands of which the latest stands here.
fn after(setup: u32, period: u32, delay: u32, last: Slot) -> Slot
    requires short { delay + setup ≤ period }
    requires early { last.cycle + 1 < 2 ^ 64 }
    ensures { result ≡ after setup period delay last }
{
    let end = u64::from(last.time) + u64::from(delay) + u64::from(setup);
    if end <= u64::from(period) {
        Slot {
            cycle: last.cycle,
            time: last.time + delay,
        }
    } else {
        Slot {
            cycle: last.cycle + 1,
            time: delay,
        }
    }
}

// The slot of the node that comes next.
fn slot_of(
    alloc: Global,
    setup: u32,
    period: u32,
    slots: &[Slot],
    delay: u32,
    node: &Node,
) -> Result<Slot, AllocError>
    requires before { All (λ j. j < length slots.now) (reads_of node.now) }
    requires short { delay + setup ≤ period }
    requires early { (j : ℕ) → (slot_at slots.now j).cycle ≤ length slots.now }
    ensures slot { IfOk result (λ slot. slot ≡ slot_of setup period slots.now delay node.now) }
    ensures early { IfOk result (λ slot. slot.cycle ≤ length slots.now + 1) }
{
    match node {
        Node::Input { .. } | Node::Constant(_) => Ok(Slot { cycle: 0, time: 0 }),
        Node::Delay { of } => Ok(Slot {
            cycle: slot_at(slots, *of).cycle,
            time: 0,
        }),
        Node::Cells { .. } | Node::Choice { .. } | Node::Table { .. } => {
            let reads = reads::reads_of(alloc, node)?;
            Ok(after(setup, period, delay, latest(slots, &reads)))
        }
    }
}

/// The slot of each node, in one pass over them.
pub fn stage(
    alloc: Global,
    nodes: &[Node],
    delays: &[u32],
    setup: u32,
    period: u32,
) -> Result<Vec<Slot>, AllocError>
    requires valid { AllMayStand [] nodes.now }
    requires delays { length delays.now ≡ length nodes.now }
    requires short { greatest delays.now + setup ≤ period }
    ensures stage { IfOk result (λ v. v.items ≡ stage delays.now setup period nodes.now) }
    ensures early { IfOk result (λ v. All (λ p. p.cycle ≤ length nodes.now) v.items) }
    ensures ends { IfOk result (λ v. greatest_time v.items + setup ≤ period) }
    ensures fits { IfOk result (λ v. Fits nodes.now delays.now setup period (slot_at v.items)) }
    ensures paths { IfOk result (λ v. PathsEnd nodes.now delays.now setup period (slot_at v.items)) }
    ensures least { IfOk result (λ v. IsLeast nodes.now delays.now setup period (slot_at v.items)) }
{
    let mut slots = Vec::new(alloc);
    'nodes: for (place, node) in nodes.iter().enumerate() {
        let next = slot_of(alloc, setup, period, &slots, delays[place], node)?;
        slots.push(next)?;
    }
    Ok(slots)
}

/// The greatest of some delays.
pub fn greatest(delays: &[u32]) -> u32
    ensures { result ≡ greatest delays.now }
{
    let mut most = 0;
    'delays: for delay in delays {
        most = most.max(*delay);
    }
    most
}

/// The greatest time of a node.
pub fn greatest_time(slots: &[Slot]) -> u32
    ensures { result ≡ greatest_time slots.now }
{
    let mut most = 0;
    'slots: for slot in slots {
        most = most.max(slot.time);
    }
    most
}

// The cycle of a node, or 0 of a constant.
fn counted_cycle(nodes: &[Node], slots: &[Slot], node: usize) -> usize
    requires slots { length slots.now ≡ length nodes.now }
    requires there { node < length nodes.now }
    ensures { result ≡ (if is_constant_at nodes.now node then 0 else (slot_at slots.now node).cycle) }
{
    if is_constant(&nodes[node]) {
        0
    } else {
        slot_at(slots, node).cycle
    }
}

/// The cycle in which the outputs are given: the greatest of their nodes' cycles, constants left aside.
pub fn latency(nodes: &[Node], slots: &[Slot], outputs: &[Output]) -> usize
    requires slots { length slots.now ≡ length nodes.now }
    requires there { All (λ o. o.from.node < length nodes.now) outputs.now }
    ensures { result ≡ latency nodes.now (slot_at slots.now) outputs.now }
{
    let mut most: usize = 0;
    'outputs: for output in outputs {
        most = most.max(counted_cycle(nodes, slots, output.from.node));
    }
    most
}

/// Whether a node is a constant.
pub fn is_constant(node: &Node) -> bool
    ensures { result ≡ is_constant node.now }
{
    matches!(node, Node::Constant(_))
}
