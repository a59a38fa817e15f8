//! Builds the design of a net at a schedule: its ports, signals and drivers, with or without a clock enable.
ghost use Rattle.std.specs.Prelude.{◌≡◌, ◌≤◌, ◌<◌, ◌+◌, ◌++◌, ◌^◌, ℕ, length, map, filter, not, IfOk, All};
ghost use Rattle.opgen_design.specs.Order.{is_register};
ghost use Rattle.opgen_net.specs.Valid.{IsValid, MayStand, widths as widths_of};
ghost use Rattle.opgen_design.specs.Run.{enable_inputs};
ghost use Rattle.opgen_pipe.specs.Copies.{signal_count};
ghost use Rattle.opgen_pipe.specs.Counts.{AreSmall};
ghost use Rattle.opgen_pipe.specs.Layouts.{IsLayout, schedule_of};
ghost use Rattle.opgen_pipe.specs.Pipelined.{all_of, design_of, drivers_of, enable_of, node_drivers, node_signals, output_drivers};
ghost use Rattle.opgen_pipe.specs.Standings.{standings};

use crate::drivers::{has_register, push_outputs, push_plain, push_registers};
use crate::layout::Layout;
use crate::ports::all_ports;
use crate::signals::all_signals;
use crate::standing::Standing;
use crate::zeros::zero_words;
use opgen_design::{Design, Driver, Signal};
use opgen_list::{Items, Text};
use opgen_net::Net;
use std::alloc::{AllocError, Global};

// The drivers of a net's design: what is no register, then the registers, then the outputs.
fn all_drivers(
    alloc: Global,
    net: &Net,
    first: usize,
    standings: &[Standing],
    latency: usize,
) -> Result<Items<Driver>, AllocError>
    requires valid { IsValid net.now }
    requires first { first ≤ 1 }
    requires standings { length standings.now ≡ length net.now.nodes }
    requires small { AreSmall standings.now }
    requires stand { All (MayStand (map (λ p. p.width) standings.now)) net.now.nodes }
    requires latency { latency ≤ 2 ^ 32 }
    ensures { IfOk result (λ drivers. drivers ≡
        filter (λ k. not (is_register k)) (all_of (node_drivers first standings.now) 0 net.now.nodes)
        ++ filter is_register (all_of (node_drivers first standings.now) 0 net.now.nodes)
        ++ output_drivers standings.now latency (first + length net.now.inputs) net.now.outputs) }
{
    let nodes = net.nodes.as_slice();
    let inputs = net.inputs.as_slice();
    let outputs = net.outputs.as_slice();
    let place = first + inputs.len();
    let mut drivers = Items::new(alloc);
    push_plain(alloc, &mut drivers, first, standings, nodes)?;
    push_registers(alloc, &mut drivers, first, standings, nodes)?;
    push_outputs(&mut drivers, place, standings, latency, outputs)?;
    Ok(drivers)
}

// The place of the first input's port: after that of the clock enable, where it is asked for.
fn first_input(enable: bool) -> usize
    ensures place { result ≡ length (enable_inputs enable) }
    ensures few { result ≤ 1 }
{
    if enable { 1 } else { 0 }
}

// The place of the port that lets the registers move, if it is asked for and there is one.
fn enable_of(enable: bool, drivers: &[Driver]) -> Option<usize>
    ensures { result ≡ enable_of enable drivers.now }
{
    if enable && has_register(drivers) {
        Some(0)
    } else {
        None
    }
}

// The signals and the drivers of a net's design at a schedule.
fn signals_and_drivers(
    alloc: Global,
    net: &Net,
    enable: bool,
    layout: &Layout,
) -> Result<(Items<Signal>, Items<Driver>), AllocError>
    requires valid { IsValid net.now }
    requires layout { IsLayout net.now layout.now }
    requires few { signal_count net.now (schedule_of layout.now) ≤ 2 ^ 32 }
    ensures signals { IfOk result (λ parts. parts.0 ≡ all_of (node_signals net.now (standings net.now (schedule_of layout.now))) 0 net.now.nodes) }
    ensures drivers { IfOk result (λ parts. parts.1 ≡ drivers_of enable net.now (schedule_of layout.now)) }
{
    let zeros = zero_words(alloc, net)?;
    let first = first_input(enable);
    let signals = all_signals(alloc, net, &layout.standings, &zeros)?;
    let drivers = all_drivers(alloc, net, first, &layout.standings, layout.latency)?;
    Ok((signals, drivers))
}

/// The design of a net at a schedule, over the widths of its nodes, under a name: with the port of a clock enable where it is
/// asked for.
pub(crate) fn design(
    alloc: Global,
    net: &Net,
    widths: &[u32],
    name: &str,
    enable: bool,
    layout: &Layout,
) -> Result<Design, AllocError>
    requires valid { IsValid net.now }
    requires widths { widths.now ≡ widths_of net.now.nodes }
    requires layout { IsLayout net.now layout.now }
    requires few { signal_count net.now (schedule_of layout.now) ≤ 2 ^ 32 }
    ensures { IfOk result (λ d. d ≡ design_of name.now enable net.now (schedule_of layout.now)) }
{
    let name = Text::from_str(alloc, name)?;
    let ports = all_ports(alloc, net, widths, enable)?;
    let (signals, drivers) = signals_and_drivers(alloc, net, enable, layout)?;
    let enable = enable_of(enable, drivers.as_slice());
    Ok(Design {
        name,
        ports,
        signals,
        drivers,
        enable,
    })
}
