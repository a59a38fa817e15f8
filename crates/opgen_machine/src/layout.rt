//! Assigns a place in memory to each signal and port of a design.
ghost use Rattle.std.specs.Prelude.{◌≡◌, ◌<◌, ◌≤◌, ◌^◌, ◌+◌, All, IfOk, IfSome, length, map};
ghost use Rattle.opgen_design.specs.Run.{at_ports, is_in, is_out};
ghost use Rattle.opgen_machine.specs.Layout.{port_spots, spots_from, start_number};

use crate::step::Spot;
use crate::tables::number;
use opgen_design::{Dir, Port, Signal};
use std::alloc::{AllocError, Global};

/// The spots of a design's words: one for each signal, and one for each port.
#[derive(Drop)]
pub(crate) struct WordSpots {
    pub signals: Vec<Spot>,
    pub ports: Vec<Spot>,
}

// The number of a signal's initial word; 0 where it has none.
fn start_number(signal: &Signal) -> u64
    requires { IfSome signal.now.initial (λ w. length w ≤ 64) }
    ensures { result ≡ start_number signal.now }
{
    match signal.initial {
        Some(word) => number(word),
        None => 0,
    }
}

/// The numbers of the signals' initial words.
pub(crate) fn start_numbers(alloc: Global, signals: &[Signal]) -> Result<Vec<u64>, AllocError>
    requires { All (λ s. IfSome s.initial (λ w. length w ≤ 64)) signals.now }
    ensures { IfOk result (λ v. v.items ≡ map start_number signals.now) }
{
    let mut numbers = Vec::new(alloc);
    for signal in signals {
        numbers.push(start_number(signal))?;
    }
    Ok(numbers)
}

/// The spots of the signals, from the first place on.
pub(crate) fn signal_spots(alloc: Global, signals: &[Signal]) -> Result<Vec<Spot>, AllocError>
    ensures { IfOk result (λ v. v.items ≡ spots_from 0 (map (λ s. s.width) signals.now)) }
{
    let mut spots = Vec::new(alloc);
    for (place, signal) in signals.iter().enumerate() {
        spots.push(Spot {
            place,
            width: signal.width,
        })?;
    }
    Ok(spots)
}

/// The number of input ports.
pub(crate) fn count_inputs(ports: &[Port]) -> usize
    ensures inputs { result ≡ length (at_ports is_in ports.now (map (λ p. p.width) ports.now)) }
    ensures few { result ≤ length ports.now }
{
    let mut count = 0;
    for port in ports {
        if let Dir::In = port.dir {
            count += 1;
        }
    }
    count
}

/// The spots of the ports: those of inputs one after another from `at` on, and those of outputs all at `rest`.
pub(crate) fn port_spots(
    alloc: Global,
    ports: &[Port],
    at: usize,
    rest: usize,
) -> Result<Vec<Spot>, AllocError>
    requires { at + length ports.now < 2 ^ 64 }
    ensures { IfOk result (λ v. v.items ≡ port_spots at rest ports.now) }
{
    let mut spots = Vec::new(alloc);
    let mut next = at;
    for port in ports {
        let place = match port.dir {
            Dir::In => {
                next += 1;
                next - 1
            }
            Dir::Out => rest,
        };
        spots.push(Spot {
            place,
            width: port.width,
        })?;
    }
    Ok(spots)
}

fn is_output(port: &Port) -> bool
    ensures { result ≡ is_out port.now.dir }
{
    matches!(port.dir, Dir::Out)
}

/// The places of the output ports among the spots of all ports.
pub(crate) fn output_places(
    alloc: Global,
    ports: &[Port],
    spots: &[Spot],
) -> Result<Vec<usize>, AllocError>
    requires { length spots.now ≡ length ports.now }
    ensures { IfOk result (λ v. v.items ≡ map (λ s. s.place) (at_ports is_out ports.now spots.now)) }
{
    let mut places = Vec::new(alloc);
    for (index, port) in ports.iter().enumerate() {
        if is_output(port) {
            places.push(spots[index].place)?;
        }
    }
    Ok(places)
}
