//! In which cycles words are read last, and what it costs to keep them for a cycle more.
ghost use Rattle.std.specs.Prelude.{◌≡◌, ◌<◌, All, length, min, replicate, IfOk};
ghost use Rattle.std.specs.List.{fold};
ghost use Rattle.opgen_schedule.specs.Moves.{keeping, output_reads, read_in};

use opgen_net::Output;
use std::alloc::{AllocError, Global};

/// What it costs to keep for a cycle more those of some words that nothing reads in it or later, or the greatest number where it is
/// more.
pub(crate) fn keeping(costs: &[u64], lasts: &[usize], cycle: usize, reads: &[usize]) -> u64
    requires costs { All (λ j. j < length costs.now) reads.now }
    requires lasts { length lasts.now ≡ length costs.now }
    ensures { result ≡ min (keeping costs.now lasts.now cycle reads.now) 18446744073709551615 }
{
    let mut total: u64 = 0;
    'reads: for read in reads {
        if lasts[*read] < cycle {
            total = total.saturating_add(costs[*read]);
        }
    }
    total
}

/// The items of a list, in one of their own.
pub(crate) fn copied(alloc: Global, items: &[usize]) -> Result<Vec<usize>, AllocError>
    ensures { IfOk result (λ v. v.items ≡ items.now) }
{
    let mut found = Vec::new(alloc);
    'items: for item in items {
        found.push(*item)?;
    }
    Ok(found)
}

// Notes that a word is read in a cycle.
fn read_in(cycle: usize, lasts: &mut [usize], read: usize)
    requires { read < length lasts.old }
    ensures { lasts.new ≡ read_in cycle lasts.old read }
{
    if lasts[read] < cycle {
        lasts[read] = cycle;
    }
}

/// Notes that words are read in a cycle.
pub(crate) fn read_all(cycle: usize, lasts: &mut [usize], reads: &[usize])
    requires { All (λ j. j < length lasts.old) reads.now }
    ensures { lasts.new ≡ fold (read_in cycle) lasts.old reads.now }
{
    'reads: for read in reads {
        read_in(cycle, lasts, *read);
    }
}

/// In which cycle each of so many words is read last by the outputs, which read in the cycle of the latency; 0 where none reads it.
pub fn output_reads(
    alloc: Global,
    count: usize,
    outputs: &[Output],
    latency: usize,
) -> Result<Vec<usize>, AllocError>
    requires { All (λ o. o.from.node < count) outputs.now }
    ensures lasts { IfOk result (λ v. v.items ≡ output_reads latency (replicate count 0) outputs.now) }
    ensures one_each { IfOk result (λ v. length v.items ≡ count) }
{
    let mut lasts = vec![in alloc; 0; count]?;
    'outputs: for output in outputs {
        read_in(latency, &mut lasts, output.from.node);
    }
    Ok(lasts)
}
