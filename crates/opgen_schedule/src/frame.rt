//! What proposals of cycles need of a net, and the proposals.
ghost use Rattle.std.specs.Prelude.{◌≡◌, length, IfOk};
ghost use Rattle.opgen_schedule.specs.Frames.{IsFrame};
ghost use Rattle.opgen_schedule.specs.Moves.{moved_back, moved_later};

use crate::costs::{Cost, costs};
use crate::earlier::earlier;
use crate::graph::Vertex;
use crate::later::later;
use opgen_list::Items;
use std::alloc::{AllocError, Global};

/// A net as proposals of cycles see it: its timing graph; in which cycle each word is read last by the outputs; the cycle of the
/// outputs; and the time that a cycle has for cells, in picoseconds.
#[derive(Drop)]
pub struct Frame {
    pub graph: Items<Vertex>,
    pub lasts: Items<usize>,
    pub latency: usize,
    pub room: u32,
}

/// Cycles made later from the last vertex to the first, where the registers have no more bits then.
pub fn moved_later(alloc: Global, frame: &Frame, cycles: &[usize]) -> Result<Vec<usize>, AllocError>
    requires frame { IsFrame frame.now }
    requires cycles { length cycles.now ≡ length frame.now.graph }
    ensures cycles { IfOk result (λ v. v.items ≡ moved_later frame.now cycles.now) }
    ensures one_each { IfOk result (λ v. length v.items ≡ length frame.now.graph) }
{
    let whole = costs(alloc, frame.graph.as_slice(), Cost::Whole)?;
    later(alloc, frame, &whole, cycles)
}

/// The latest cycles, made earlier from the first vertex to the last and then later again.
pub fn moved_back(alloc: Global, frame: &Frame, cycles: &[usize]) -> Result<Vec<usize>, AllocError>
    requires frame { IsFrame frame.now }
    requires cycles { length cycles.now ≡ length frame.now.graph }
    ensures cycles { IfOk result (λ v. v.items ≡ moved_back frame.now cycles.now) }
    ensures one_each { IfOk result (λ v. length v.items ≡ length frame.now.graph) }
{
    let graph = frame.graph.as_slice();
    let nothing = costs(alloc, graph, Cost::Nothing)?;
    let shared = costs(alloc, graph, Cost::Shared)?;
    let latest = later(alloc, frame, &nothing, cycles)?;
    let back = earlier(alloc, frame, &shared, &latest)?;
    moved_later(alloc, frame, &back)
}
