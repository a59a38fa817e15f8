//! The depth of a design: the most registers on a way to a signal.
ghost use Rattle.std.specs.Prelude.{ℕ, ◌≡◌, ◌≤◌, IfOk, IfSome, None, slice_index};
ghost use Rattle.std.specs.List.{list_all};
ghost use Rattle.opgen_design.specs.Sound.{HasNumbers, IsSound};
ghost use Rattle.opgen_design.specs.Depth.{HasDepth};
ghost use Rattle.opgen_sim.specs.Ranks.{is_ranked};

use crate::ranks::{is_ranked, least_rank};
use opgen_design::{Design, Driver, Target};
use opgen_num::Memory;
use opgen_runs::evaluation_order;
use std::alloc::{AllocError, Global};

// What became of the rank of a driver's signal, or of the ranks of all.
#[derive(Clone, Copy, PartialEq, Eq)]
enum Raised {
    No,
    Yes,
    TooHigh,
}

// Raises the rank of the driver's signal to the least that is allowed, unless that is above the most.
fn raise(driver: &Driver, most: u32, ranks: &mut [u32]) -> Raised {
    let Target::Signal(signal) = driver.target() else {
        return Raised::No;
    };
    let least = least_rank(driver, ranks);
    if signal >= ranks.len() || least <= u64::from(ranks[signal]) {
        return Raised::No;
    }
    if least > u64::from(most) {
        return Raised::TooHigh;
    }
    ranks[signal] = least as u32;
    Raised::Yes
}

// One pass over the drivers in this order.
fn raise_all(drivers: &[Driver], order: &[usize], most: u32, ranks: &mut [u32]) -> Raised {
    let mut raised = Raised::No;
    for place in order {
        if let Some(driver) = drivers.get(*place) {
            match raise(driver, most, ranks) {
                Raised::No => {}
                Raised::Yes => raised = Raised::Yes,
                Raised::TooHigh => return Raised::TooHigh,
            }
        }
    }
    raised
}

// Raises ranks until they stay or one is too high, in no more passes than the most rank asks for.
fn settle(drivers: &[Driver], order: &[usize], most: u32, ranks: &mut [u32]) {
    for _ in 0..u64::from(most) + 2 {
        if raise_all(drivers, order, most, ranks) != Raised::Yes {
            return;
        }
    }
}

fn add_registers(drivers: &[Driver], places: &mut Vec<usize>) -> Result<(), AllocError> {
    for (place, driver) in drivers.iter().enumerate() {
        if driver.is_register() {
            places.push(place)?;
        }
    }
    Ok(())
}

// The places of the drivers, each after those of the signals that it reads, and the registers last.
fn places(alloc: Global, design: &Design) -> Result<Vec<usize>, Memory>
    requires { IsSound design.now }
    ensures { IfOk result (λ v. HasNumbers design.now) }
{
    let mut places = evaluation_order(alloc, design)?;
    add_registers(design.drivers.as_slice(), &mut places)?;
    Ok(places)
}

// Whether each signal has at least the rank that its driver asks for.
fn are_ranks(drivers: &[Driver], ranks: &[u32]) -> bool
    ensures { result ≡ list_all (is_ranked (slice_index ranks.now)) drivers.now }
{
    drivers.iter().all(|driver| is_ranked(driver, ranks))
}

fn highest_rank(ranks: &[u32]) -> u32
    ensures { (s : ℕ) → slice_index ranks.now s ≤ result }
{
    let mut highest: u32 = 0;
    for rank in ranks {
        highest = highest.max(*rank);
    }
    highest
}

/// A depth of a sound design, if it finds one of at most `most`: the outputs of a cycle are given by the inputs of that cycle and of as
/// many cycles before it.
///
/// None for a design with an enable, or with a loop of registers. It is not claimed that every other design has a number, nor that
/// it is the least: with None, or with a larger number, a caller only takes longer. Goes over the drivers at most `most` + 3 times.
///
/// Without an enable, a design of 2^32 or more ports, signals and drivers together is answered by `Memory`.
pub fn depth(alloc: Global, design: &Design, most: u32) -> Result<Option<u32>, Memory>
    requires { IsSound design.now }
    ensures depth { IfOk result (λ o. IfSome o (λ depth. HasDepth design.now depth)) }
    ensures most { IfOk result (λ o. IfSome o (λ depth. depth ≤ most)) }
    ensures numbers { IfOk result (λ o. design.now.enable ≡ None → HasNumbers design.now) }
{
    if design.enable.is_some() {
        return Ok(None);
    }
    let places = places(alloc, design)?;
    let drivers = design.drivers.as_slice();
    let mut ranks = vec![in alloc; 0u32; design.signals.len()]?;
    settle(drivers, &places, most, &mut ranks);
    let depth = highest_rank(&ranks);
    if depth <= most && are_ranks(drivers, &ranks) {
        Ok(Some(depth))
    } else {
        Ok(None)
    }
}
