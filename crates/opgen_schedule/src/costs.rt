//! What it costs to keep the words of a net for a cycle more.
ghost use Rattle.std.specs.Prelude.{◌≡◌, ◌<◌, All, length, replicate, IfOk};
ghost use Rattle.std.specs.List.{fold};
ghost use Rattle.opgen_schedule.specs.Graph.{IsOrdered};
ghost use Rattle.opgen_schedule.specs.Moves.{cost_as, costs_of, count_reader, readers_of};

use crate::graph::Vertex;
use std::alloc::{AllocError, Global};

/// What it costs to keep a word for a cycle: nothing, its width, or its width shared out among its readers.
#[derive(Clone, Copy, Debug, PartialEq, Eq)]
pub enum Cost {
    Nothing,
    Whole,
    Shared,
}

// Counts a reader of a vertex.
fn count_reader(counts: &mut [usize], read: usize)
    requires { read < length counts.old }
    ensures { counts.new ≡ count_reader counts.old read }
{
    counts[read] = counts[read].saturating_add(1);
}

// Counts a reader of each of some vertices.
fn count_reads(counts: &mut [usize], reads: &[usize])
    requires { All (λ j. j < length counts.old) reads.now }
    ensures { counts.new ≡ fold count_reader counts.old reads.now }
{
    'reads: for read in reads {
        count_reader(counts, *read);
    }
}

// The number of readers of each vertex.
fn readers(alloc: Global, graph: &[Vertex]) -> Result<Vec<usize>, AllocError>
    requires { IsOrdered graph.now }
    ensures readers { IfOk result (λ v. v.items ≡ readers_of graph.now) }
    ensures one_each { IfOk result (λ v. length v.items ≡ length graph.now) }
{
    let mut counts = vec![in alloc; 0; graph.len()]?;
    'graph: for vertex in graph {
        count_reads(&mut counts, vertex.reads.as_slice());
    }
    Ok(counts)
}

// What it costs to keep a word of a width and with so many readers, in twelfths of a bit.
fn cost_as(cost: Cost, width: u32, readers: usize) -> u64
    ensures { result ≡ cost_as cost width readers }
{
    match cost {
        Cost::Nothing => 0,
        Cost::Whole => 12 * u64::from(width),
        Cost::Shared => 12 * u64::from(width) / (readers.max(1) as u64),
    }
}

/// What it costs to keep the word of each vertex for a cycle, in twelfths of a bit.
pub(crate) fn costs(alloc: Global, graph: &[Vertex], cost: Cost) -> Result<Vec<u64>, AllocError>
    requires { IsOrdered graph.now }
    ensures costs { IfOk result (λ v. v.items ≡ costs_of cost graph.now) }
    ensures one_each { IfOk result (λ v. length v.items ≡ length graph.now) }
{
    let counts = readers(alloc, graph)?;
    let mut found = Vec::new(alloc);
    'graph: for (place, vertex) in graph.iter().enumerate() {
        found.push(cost_as(cost, vertex.width, counts[place]))?;
    }
    Ok(found)
}
