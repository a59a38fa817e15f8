//! Takes, of the schedule of one pass and of proposals, the one with the fewest bits of registers.
ghost use Rattle.std.specs.Prelude.{◌≡◌, ◌+◌, ◌-◌, ◌≤◌, ◌&&◌, All, length, min, nat_le, nat_lt, slice_index, IfOk};
ghost use Rattle.opgen_net.specs.Valid.{IsValid, widths as widths_of};
ghost use Rattle.opgen_schedule.specs.Frames.{IsFrame};
ghost use Rattle.opgen_schedule.specs.Moves.{timed};
ghost use Rattle.opgen_schedule.specs.Schedule.{greatest};
ghost use Rattle.opgen_schedule.specs.Stage.{slot_at};
ghost use Rattle.opgen_pipe.specs.Copies.{net_latency, signal_count};
ghost use Rattle.opgen_pipe.specs.Placed.{IsMeasured, bits_before, fewer, fewest, frame_of, register_bits, slots_placed};

use crate::counts::{copies, signal_count};
use crate::placing::{Placing, Timing};
use opgen_design::MAX_SIGNALS;
use opgen_list::Items;
use opgen_net::Net;
use opgen_schedule::{
    Frame, Slot, cycles_of, fits, latency, moved_back, moved_later, output_reads, stage,
    timed_slots, timing_graph,
};
use std::alloc::{AllocError, Global};

/// Slots of a net, with the number of their bits of registers, or the greatest number where there are more.
#[derive(Drop)]
struct Choice {
    slots: Vec<Slot>,
    bits: u64,
}

// The bits of the registers of nodes of these widths and numbers of copies, or the greatest number where there are more.
fn register_bits(widths: &[u32], copies: &[usize]) -> u64
    requires { length copies.now ≡ length widths.now }
    ensures { result ≡ min (bits_before widths.now (slice_index copies.now) (length copies.now)) 18446744073709551615 }
{
    let mut bits: u64 = 0;
    'nodes: for (place, own) in copies.iter().enumerate() {
        bits = bits.saturating_add(u64::from(widths[place]).saturating_mul(*own as u64));
    }
    bits
}

// How many signals and bits of registers the design of a net has at these slots, each at most the greatest number.
fn measured(
    alloc: Global,
    net: &Net,
    widths: &[u32],
    slots: &[Slot],
    latency: usize,
) -> Result<(usize, u64), AllocError>
    requires valid { IsValid net.now }
    requires widths { widths.now ≡ widths_of net.now.nodes }
    requires slots { length slots.now ≡ length net.now.nodes }
    requires latency { latency ≡ net_latency net.now (slot_at slots.now) }
    ensures signals { IfOk result (λ m. m.0 ≡ min (signal_count net.now (slot_at slots.now)) 18446744073709551615) }
    ensures bits { IfOk result (λ m. m.1 ≡ min (register_bits net.now (slot_at slots.now)) 18446744073709551615) }
{
    let copies = copies(alloc, net, slots, latency)?;
    Ok((signal_count(&copies), register_bits(widths, &copies)))
}

// Whether a schedule that fits is taken in place of another, by its latency and the greatest, its signals and its bits of registers.
fn is_better(latency: usize, most: usize, signals: usize, bits: u64, best: u64) -> bool
    ensures { result ≡ (nat_le latency most && (nat_le signals MAX_SIGNALS && nat_lt bits best)) }
{
    latency <= most && signals <= MAX_SIGNALS && bits < best
}

// Of a schedule and one in given cycles the second, where it may be taken and has fewer bits of registers.
fn better(
    alloc: Global,
    net: &Net,
    widths: &[u32],
    frame: &Frame,
    best: Choice,
    cycles: &[usize],
) -> Result<Choice, AllocError>
    requires valid { IsValid net.now }
    requires widths { widths.now ≡ widths_of net.now.nodes }
    requires frame { IsFrame frame.now }
    requires nodes { length frame.now.graph ≡ length net.now.nodes }
    requires best { IsMeasured net.now best }
    requires cycles { length cycles.now ≡ length frame.now.graph }
    ensures slots { IfOk result (λ c. c.slots.items ≡ fewer frame.now net.now best.slots.items (timed frame.now.graph cycles.now)) }
    ensures measured { IfOk result (IsMeasured net.now) }
{
    let slots = timed_slots(alloc, frame.graph.as_slice(), cycles)?;
    if !fits(frame.room, frame.graph.as_slice(), &slots) {
        return Ok(best);
    }
    let latency = latency(net.nodes.as_slice(), &slots, net.outputs.as_slice());
    let (signals, bits) = measured(alloc, net, widths, &slots, latency)?;
    if is_better(latency, frame.latency, signals, bits, best.bits) {
        Ok(Choice { slots, bits })
    } else {
        Ok(best)
    }
}

// Of a schedule and the two proposals that are made from its cycles, the one with the fewest bits of registers.
fn fewest(
    alloc: Global,
    net: &Net,
    widths: &[u32],
    frame: &Frame,
    first: Vec<Slot>,
) -> Result<Vec<Slot>, AllocError>
    requires valid { IsValid net.now }
    requires widths { widths.now ≡ widths_of net.now.nodes }
    requires frame { IsFrame frame.now }
    requires nodes { length frame.now.graph ≡ length net.now.nodes }
    requires first { length first.items ≡ length net.now.nodes }
    requires latency { frame.now.latency ≡ net_latency net.now (slot_at first.items) }
    requires early { All (λ p. p.cycle ≤ length net.now.nodes) first.items }
    ensures slots { IfOk result (λ v. v.items ≡ fewest frame.now net.now first.items) }
    ensures one_each { IfOk result (λ v. length v.items ≡ length net.now.nodes) }
    ensures early { IfOk result (λ v. All (λ p. p.cycle ≤ length net.now.nodes) v.items) }
{
    let (_signals, bits) = measured(alloc, net, widths, &first, frame.latency)?;
    let cycles = cycles_of(alloc, &first)?;
    let later = moved_later(alloc, frame, &cycles)?;
    let back = moved_back(alloc, frame, &cycles)?;
    let best = Choice { slots: first, bits };
    let best = better(alloc, net, widths, frame, best, &later)?;
    let best = better(alloc, net, widths, frame, best, &back)?;
    Ok(best.slots)
}

// A net as the proposals see it.
fn frame(
    alloc: Global,
    net: &Net,
    widths: &[u32],
    delays: &[u32],
    room: u32,
    latency: usize,
) -> Result<Frame, AllocError>
    requires valid { IsValid net.now }
    requires widths { widths.now ≡ widths_of net.now.nodes }
    requires delays { length delays.now ≡ length net.now.nodes }
    ensures frame { IfOk result (λ f. f ≡ frame_of delays.now room latency net.now) }
    ensures is_frame { IfOk result IsFrame }
    ensures nodes { IfOk result (λ f. length f.graph ≡ length net.now.nodes) }
{
    let nodes = net.nodes.as_slice();
    let graph = timing_graph(alloc, nodes, delays, widths)?;
    let lasts = output_reads(alloc, nodes.len(), net.outputs.as_slice(), latency)?;
    Ok(Frame {
        graph,
        lasts: Items::from_vec(lasts),
        latency,
        room,
    })
}

/// The slots of a net, over the widths and delays of its nodes: one for each.
pub(crate) fn place(
    alloc: Global,
    net: &Net,
    widths: &[u32],
    delays: &[u32],
    setup: u32,
    timing: Timing,
) -> Result<Vec<Slot>, AllocError>
    requires valid { IsValid net.now }
    requires widths { widths.now ≡ widths_of net.now.nodes }
    requires delays { length delays.now ≡ length net.now.nodes }
    requires short { greatest delays.now + setup ≤ timing.period }
    ensures slots { IfOk result (λ v. v.items ≡ slots_placed timing.placing delays.now setup timing.period net.now) }
    ensures one_each { IfOk result (λ v. length v.items ≡ length net.now.nodes) }
    ensures early { IfOk result (λ v. All (λ p. p.cycle ≤ length net.now.nodes) v.items) }
{
    let nodes = net.nodes.as_slice();
    let first = stage(alloc, nodes, delays, setup, timing.period)?;
    match timing.placing {
        Placing::Earliest => Ok(first),
        Placing::Few => {
            let latency = latency(nodes, &first, net.outputs.as_slice());
            let frame = frame(alloc, net, widths, delays, timing.period - setup, latency)?;
            fewest(alloc, net, widths, &frame, first)
        }
    }
}
