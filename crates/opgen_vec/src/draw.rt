//! The stimulus of a specification.
ghost use Rattle.std.specs.Prelude.{◌≡◌, ◌++◌, length, map, IfOk, OnOk};
ghost use Rattle.opgen_num.specs.Words.{AreRowsOfCells};
ghost use Rattle.opgen_operator.specs.Outputs.{inputs_of};
ghost use Rattle.opgen_operator.specs.Valid.{IsValidSpec};
ghost use Rattle.opgen_vec.specs.Writing.{row_count};
ghost use Rattle.opgen_vec.specs.Stimulus.{next, drawn, given, divides, draws_from, state_after, stimulus_cells};

use crate::vectors::Vectors;
use opgen_num::Memory;
use opgen_operator::{PortFormat, Spec, inputs_are_wide};
use std::alloc::{AllocError, Global};

const MULTIPLIER: u128 = 6364136223846793005;

const INCREMENT: u128 = 1442695040888963407;

/// The state after this one: a linear congruential generator modulo 2^64, with the factor and the increment of Knuth's MMIX
/// (The Art of Computer Programming, volume 2, section 3.3.4).
pub fn next(state: u64) -> u64
    ensures { result ≡ next state }
{
    ((state as u128 * MULTIPLIER + INCREMENT) % (1 << 64)) as u64
}

/// The highest bits of a state, so many of them, as a number.
pub fn drawn(width: u32, state: u64) -> u64
    ensures { result ≡ drawn width state }
{
    (state as u128 >> 64u32.saturating_sub(width)) as u64
}

// What a port is given of a state: what is drawn, but 1 for a divisor of 0.
fn given(divides: bool, port: &PortFormat, state: u64) -> u64
    ensures { result ≡ given divides port.now state }
{
    let number = drawn(port.format.width, state);
    if divides && number == 0 { 1 } else { number }
}

fn divides(divisor: Option<usize>, place: usize) -> bool
    ensures { result ≡ divides divisor place }
{
    match divisor {
        Some(port) => port == place,
        None => false,
    }
}

// Draws a word for each port, in order, and gives the last state.
fn draw_row(
    divisor: Option<usize>,
    ports: &[PortFormat],
    start: u64,
    cells: &mut Vec<u128>,
) -> Result<u64, AllocError>
    ensures state { IfOk result (λ state. state ≡ state_after ports.now start) }
    ensures cells { OnOk result (cells.new.items ≡ cells.old.items ++ draws_from divisor 0 ports.now start) }
{
    let mut state = start;
    let mut place = 0;
    'ports: for port in ports {
        state = next(state);
        cells.push(given(divides(divisor, place), port, state) as u128)?;
        place += 1;
    }
    Ok(state)
}

/// Vectors of so many cycles for the inputs of a specification, drawn from a seed.
pub fn stimulus(alloc: Global, spec: &Spec, seed: u64, cycles: u32) -> Result<Vectors, Memory>
    requires { IsValidSpec spec.now }
    ensures columns { IfOk result (λ v. v.columns ≡ length (inputs_of spec.now)) }
    ensures cells { IfOk result (λ v. v.cells.items ≡ stimulus_cells spec.now seed cycles) }
    ensures fit { IfOk result (λ v. AreRowsOfCells (map (λ port. port.format.width) (inputs_of spec.now)) cycles v.cells.items) }
    ensures count { IfOk result (λ v. row_count v.columns v.cells.items ≡ cycles) }
{
    inputs_are_wide();
    let ports = spec.inputs(alloc)?;
    let divisor = spec.op.divisor();
    let mut cells = Vec::new(alloc);
    let mut state = seed;
    let mut left = cycles;
    'cycles: while left > 0 {
        state = draw_row(divisor, &ports, state, &mut cells)?;
        left -= 1;
    }
    Ok(Vectors {
        columns: ports.len() as u32,
        cells,
    })
}
