//! Builds the adder graph of a set, round by round: each round makes every number that two earlier ones give.
ghost use Rattle.std.specs.Prelude.{◌≡◌, ℕ, ◌≤◌, IfSome, IfNone, IfOk, OnOk, ◌++◌, All, Contains, EachIndex, slice_index};
ghost use Rattle.std.specs.List.Sorted.{IsNonDecreasing};
ghost use Rattle.opgen_graph.specs.Adders.{IsTerm, Comb, IsFirstStep};
ghost use Rattle.opgen_graph.specs.Reach.{Among, Reachable, IsAdderSet};
ghost use Rattle.opgen_graph.specs.Graphs.{IsFirstAdder, Round, IsRanks, values};

use crate::forms::{Step, combine};
use opgen_list::Items;
use opgen_num::Memory;
use std::alloc::{AllocError, Global};

/// One adder: its value, made of `u` and `v`.
#[derive(Clone, Copy, Debug)]
pub struct Adder {
    pub value: u32,
    pub u: u32,
    pub v: u32,
    pub step: Step,
}

/// Adders, each of which uses 1 and the values of earlier ones.
#[derive(Drop)]
pub struct Graph {
    pub adders: Items<Adder>,
}

// The adder with the least second operand, for one first operand.
fn least_second(u: u32, placed: &[u32], value: u32) -> Option<Adder>
    requires terms { IsTerm u × IsTerm value × All IsTerm placed.now }
    requires increasing { IsNonDecreasing placed.now }
    ensures none { IfNone result (EachIndex placed.now (λ k. Comb u (slice_index placed.now k) value → ⊥)) }
    ensures made { IfSome result (λ a. (a.value ≡ value) × (a.u ≡ u) × Contains placed.now a.v × IsFirstStep u a.v value a.step) }
    ensures least { IfSome result (λ a. EachIndex placed.now (λ k. Comb u (slice_index placed.now k) value → a.v ≤ slice_index placed.now k)) }
{
    for v in placed {
        if let Some(step) = combine(u, *v, value) {
            return Some(Adder {
                value,
                u,
                v: *v,
                step,
            });
        }
    }
    None
}

// The adder of a number, of those that are placed.
fn first_adder(placed: &[u32], value: u32) -> Option<Adder>
    requires terms { IsTerm value × All IsTerm placed.now }
    requires increasing { IsNonDecreasing placed.now }
    ensures none { IfNone result (Among placed.now value → ⊥) }
    ensures first { IfSome result (λ a. (a.value ≡ value) × IsFirstAdder placed.now a) }
{
    for u in placed {
        if let Some(adder) = least_second(*u, placed, value) {
            return Some(adder);
        }
    }
    None
}

// What one round makes, and what it leaves.
#[derive(Drop)]
struct Made {
    fresh: Vec<Adder>,
    rest: Vec<u32>,
}

fn round(alloc: Global, placed: &[u32], left: &[u32]) -> Result<Made, AllocError>
    requires terms { All IsTerm left.now × All IsTerm placed.now }
    requires increasing { IsNonDecreasing placed.now }
    ensures { IfOk result (λ made. Round placed.now left.now made.fresh.items made.rest.items) }
{
    let mut fresh = Vec::new(alloc);
    let mut rest = Vec::new(alloc);
    for value in left {
        match first_adder(placed, *value) {
            Some(adder) => fresh.push(adder)?,
            None => rest.push(*value)?,
        }
    }
    Ok(Made { fresh, rest })
}

// Appends what a round made.
fn place(placed: &mut Vec<u32>, adders: &mut Vec<Adder>, fresh: &[Adder]) -> Result<(), AllocError>
    ensures placed { OnOk result (placed.new.items ≡ placed.old.items ++ values fresh.now) }
    ensures adders { OnOk result (adders.new.items ≡ adders.old.items ++ fresh.now) }
{
    for adder in fresh {
        placed.push(adder.value)?;
        adders.push(*adder)?;
    }
    Ok(())
}

// The adders of a set, round by round.
fn ranks(alloc: Global, set: &[u32]) -> Result<Option<Vec<Adder>>, AllocError>
    requires { IsAdderSet set.now }
    ensures none { IfOk result (λ found. IfNone found (Reachable set.now → ⊥)) }
    ensures ranks { IfOk result (λ found. IfSome found (λ adders. IsRanks set.now adders.items)) }
{
    let mut placed = vec![in alloc; 1]?;
    let mut adders = Vec::new(alloc);
    let mut left = set.to_vec(alloc)?;
    'rounds: while !left.is_empty() {
        let made = round(alloc, placed.as_slice(), left.as_slice())?;
        if made.fresh.is_empty() {
            return Ok(None);
        }
        place(&mut placed, &mut adders, made.fresh.as_slice())?;
        placed.sort_unstable();
        left = made.rest;
    }
    Ok(Some(adders))
}

/// The graph of a set by ranks, if the set can be reached from 1.
pub fn reach(alloc: Global, set: &[u32]) -> Result<Option<Graph>, Memory>
    requires { IsAdderSet set.now }
    ensures none { IfOk result (λ found. IfNone found (Reachable set.now → ⊥)) }
    ensures ranks { IfOk result (λ found. IfSome found (λ graph. IsRanks set.now graph.adders)) }
{
    match ranks(alloc, set)? {
        Some(adders) => Ok(Some(Graph {
            adders: Items::from_vec(adders),
        })),
        None => Ok(None),
    }
}
