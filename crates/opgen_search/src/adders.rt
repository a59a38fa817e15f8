//! The least set of adders for the odd parts of some numbers, and its graph.
ghost use Rattle.std.specs.Prelude.{◌≤◌, All, IfOk};
ghost use Rattle.opgen_num.specs.declared.limits.TheConstants.{MAX_SEARCHED_CONSTANT};
ghost use Rattle.opgen_num.specs.declared.format.TheConstants.{MAX_INPUT};
ghost use Rattle.opgen_ports.specs.OddParts.{odd_part_count};
ghost use Rattle.opgen_ports.specs.Ranges.{IsWithin};
ghost use Rattle.opgen_graph.specs.Served.{Serves};
ghost use Rattle.opgen_search.specs.Recipe.{IsLeastGraphOf};

use crate::gate::Gate;
use crate::least::least_set;
use opgen_graph::{Graph, reach, targets};
use opgen_num::Memory;
use std::alloc::Global;
use std::thread::Threads;

/// A least set of adders, increasing, and its graph.
#[derive(Drop)]
pub struct LeastGraph {
    pub set: Vec<u32>,
    pub graph: Graph,
}

/// The least set of adders for the odd parts of some numbers, as factors of an input of a width, and
/// its graph. Beside the odd parts it has at most `extra` numbers, or it is that of their signed digits.
///
/// The set is sought by as many workers, and does not depend on their number.
pub fn least_graph<R: Threads + Sync, G: Gate + Sync>(
    rt: &R,
    alloc: Global,
    numbers: &[i64],
    width: u32,
    extra: u32,
    workers: u32,
    gate: &G,
) -> Result<LeastGraph, Memory>
    requires numbers { All (IsWithin MAX_SEARCHED_CONSTANT) numbers.now }
    requires few { odd_part_count numbers.now ≤ 8 }
    requires width { (1 ≤ width) × (width ≤ MAX_INPUT) }
    requires extra { extra ≤ 2 }
    requires workers { (1 ≤ workers) × (workers ≤ 32) }
    ensures least { IfOk result (λ found. IsLeastGraphOf numbers.now width extra found.set.items found.graph) }
    ensures serves { IfOk result (λ found. Serves numbers.now found.graph) }
{
    let parts = targets(alloc, numbers)?;
    let set = least_set(rt, alloc, parts.as_slice(), width, extra, workers, gate)?;
    let Some(graph) = reach(alloc, set.as_slice())? else {
        unreachable!()
    };
    Ok(LeastGraph { set, graph })
}
