//! The adder graph of several constants or of taps: that of the least set, which is searched for, or that of a fixed rule.
ghost use Rattle.std.specs.Prelude.{◌≡◌, ◌↔◌, ℕ, ◌≤◌, All, Contains, IfOk};
ghost use Rattle.std.specs.List.Sorted.{IsStrictlyIncreasing};
ghost use Rattle.opgen_num.specs.declared.limits.TheConstants.{MAX_CONSTANT};
ghost use Rattle.opgen_graph.specs.Graphs.{values};
ghost use Rattle.opgen_graph.specs.Served.{Serves};
ghost use Rattle.opgen_kinds.specs.Several.{IsAcceptedSeveral};
ghost use Rattle.opgen_kinds.specs.Taps.{IsAcceptedTaps};
ghost use Rattle.opgen_ports.specs.Ranges.{IsWithin};
ghost use Rattle.opgen_top.specs.AdderGraphs.{IsRuleGraphOf, IsGraphOf};

use opgen_graph::{Adder, Graph};
use opgen_num::Memory;
use opgen_search::{Gate, least_graph};
use opgen_shared::shared_graph;
use opgen_spec::{Several, Taps};
use std::alloc::{AllocError, Global};
use std::thread::Threads;

/// A graph of adders, and its numbers, increasing.
#[derive(Drop)]
pub(crate) struct AdderGraph {
    pub graph: Graph,
    pub set: Vec<u32>,
}

fn values(alloc: Global, adders: &[Adder]) -> Result<Vec<u32>, AllocError>
    ensures { IfOk result (λ found. found.items ≡ values adders.now) }
{
    let mut found = Vec::new(alloc);
    'adders: for adder in adders {
        found.push(adder.value)?;
    }
    Ok(found)
}

// The numbers of a graph, increasing, each once.
fn members(alloc: Global, adders: &[Adder]) -> Result<Vec<u32>, AllocError>
    ensures increasing { IfOk result (λ set. IsStrictlyIncreasing set.items) }
    ensures members { IfOk result (λ set. (x : ℕ) → Contains set.items x ↔ Contains (values adders.now) x) }
{
    let mut set = values(alloc, adders)?;
    set.sort_unstable();
    set.dedup();
    Ok(set)
}

// The graph of some numbers by the fixed rule.
fn rule_graph(alloc: Global, numbers: &[i64]) -> Result<AdderGraph, Memory>
    requires { All (IsWithin MAX_CONSTANT) numbers.now }
    ensures graph { IfOk result (λ made. IsRuleGraphOf numbers.now made.set.items made.graph) }
    ensures serves { IfOk result (λ made. Serves numbers.now made.graph) }
{
    let graph = shared_graph(alloc, numbers)?;
    let set = members(alloc, graph.adders.as_slice())?;
    Ok(AdderGraph { graph, set })
}

/// The graph of several constants. A least set is sought by so many workers.
pub(crate) fn graph_of_several<R: Threads + Sync, G: Gate + Sync>(
    rt: &R,
    alloc: Global,
    several: &Several,
    workers: u32,
    gate: &G,
) -> Result<AdderGraph, Memory>
    requires several { IsAcceptedSeveral several.now }
    requires workers { (1 ≤ workers) × (workers ≤ 32) }
    ensures graph { IfOk result (λ made. IsGraphOf several.now.searched several.now.constants several.now.input.width several.now.extra
        made.set.items made.graph) }
    ensures serves { IfOk result (λ made. Serves several.now.constants made.graph) }
{
    let constants = several.constants.as_slice();
    if !several.searched {
        return rule_graph(alloc, constants);
    }
    let found = least_graph(
        rt,
        alloc,
        constants,
        several.input.width,
        several.extra,
        workers,
        gate,
    )?;
    Ok(AdderGraph {
        graph: found.graph,
        set: found.set,
    })
}

/// The graph of the taps of a transposed filter. A least set is sought by so many workers.
pub(crate) fn graph_of_taps<R: Threads + Sync, G: Gate + Sync>(
    rt: &R,
    alloc: Global,
    taps: &Taps,
    workers: u32,
    gate: &G,
) -> Result<AdderGraph, Memory>
    requires taps { IsAcceptedTaps taps.now }
    requires workers { (1 ≤ workers) × (workers ≤ 32) }
    ensures graph { IfOk result (λ made. IsGraphOf taps.now.searched taps.now.taps taps.now.input.width taps.now.extra made.set.items made.graph) }
    ensures serves { IfOk result (λ made. Serves taps.now.taps made.graph) }
{
    let numbers = taps.taps.as_slice();
    if !taps.searched {
        return rule_graph(alloc, numbers);
    }
    let found = least_graph(
        rt,
        alloc,
        numbers,
        taps.input.width,
        taps.extra,
        workers,
        gate,
    )?;
    Ok(AdderGraph {
        graph: found.graph,
        set: found.set,
    })
}
