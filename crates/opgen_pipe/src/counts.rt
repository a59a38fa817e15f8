//! How many delayed copies of each node a schedule needs, and how many signals the design has.
ghost use Rattle.std.specs.Prelude.{◌≡◌, ◌<◌, ◌-◌, ℕ, All, false, true, length, max, min, map, nat_eq, slice_index, IfOk, if◌then◌else◌};
ghost use Rattle.opgen_net.specs.Valid.{IsValid};
ghost use Rattle.opgen_schedule.specs.Reads.{is_constant_at};
ghost use Rattle.opgen_schedule.specs.Stage.{slot_at};
ghost use Rattle.opgen_pipe.specs.Copies.{copy_read, net_latency, signals_before};
ghost use Rattle.opgen_pipe.specs.Counts.{AreCopies};

use opgen_net::{Net, Node, Output};
use opgen_schedule::{Slot, is_constant, reads_of};
use std::alloc::{AllocError, Global};

// Raises the number of copies of a node that is read in a cycle.
fn raise(nodes: &[Node], slots: &[Slot], cycle: usize, read: usize, counts: &mut [usize])
    requires there { read < length nodes.now }
    requires slots { length slots.now ≡ length nodes.now }
    requires counts { length counts.old ≡ length nodes.now }
    ensures live { (j : ℕ) → j < length nodes.now → is_constant_at nodes.now j ≡ false
        → slice_index counts.new j ≡ max (slice_index counts.old j) (if nat_eq read j then cycle - (slot_at slots.now j).cycle else 0) }
    ensures still { (j : ℕ) → is_constant_at nodes.now j ≡ true → slice_index counts.new j ≡ slice_index counts.old j }
{
    if !is_constant(&nodes[read]) {
        let copy = cycle.saturating_sub(slots[read].cycle);
        if counts[read] < copy {
            counts[read] = copy;
        }
    }
}

// Raises the numbers of copies of all nodes that are read in a cycle.
fn raise_all(nodes: &[Node], slots: &[Slot], cycle: usize, reads: &[usize], counts: &mut [usize])
    requires there { All (λ j. j < length nodes.now) reads.now }
    requires slots { length slots.now ≡ length nodes.now }
    requires counts { length counts.old ≡ length nodes.now }
    ensures live { (j : ℕ) → j < length nodes.now → is_constant_at nodes.now j ≡ false
        → slice_index counts.new j ≡ max (slice_index counts.old j) (copy_read (slot_at slots.now) cycle j reads.now) }
    ensures still { (j : ℕ) → is_constant_at nodes.now j ≡ true → slice_index counts.new j ≡ slice_index counts.old j }
{
    'reads: for read in reads {
        raise(nodes, slots, cycle, *read, counts);
    }
}

// The nodes that the outputs read.
fn output_nodes(alloc: Global, outputs: &[Output]) -> Result<Vec<usize>, AllocError>
    ensures { IfOk result (λ v. v.items ≡ map (λ o. o.from.node) outputs.now) }
{
    let mut nodes = Vec::new(alloc);
    'outputs: for output in outputs {
        nodes.push(output.from.node)?;
    }
    Ok(nodes)
}

/// How many copies each node has: those that nodes and outputs read.
pub(crate) fn copies(
    alloc: Global,
    net: &Net,
    slots: &[Slot],
    latency: usize,
) -> Result<Vec<usize>, AllocError>
    requires valid { IsValid net.now }
    requires slots { length slots.now ≡ length net.now.nodes }
    requires latency { latency ≡ net_latency net.now (slot_at slots.now) }
    ensures { IfOk result (λ v. AreCopies net.now slots.now v.items) }
{
    let nodes = net.nodes.as_slice();
    let mut counts = vec![in alloc; 0; nodes.len()]?;
    'nodes: for (place, node) in nodes.iter().enumerate() {
        let reads = reads_of(alloc, node)?;
        raise_all(nodes, slots, slots[place].cycle, &reads, &mut counts);
    }
    let last = output_nodes(alloc, net.outputs.as_slice())?;
    raise_all(nodes, slots, latency, &last, &mut counts);
    Ok(counts)
}

/// The number of signals of nodes with these numbers of copies: one for each node and copy, or the greatest number where there are
/// more.
pub(crate) fn signal_count(copies: &[usize]) -> usize
    ensures { result ≡ min (signals_before (slice_index copies.now) (length copies.now)) 18446744073709551615 }
{
    let mut count: usize = 0;
    'nodes: for own in copies {
        count = count.saturating_add(1).saturating_add(*own);
    }
    count
}
