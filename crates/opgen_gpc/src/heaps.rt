//! Replaces bits of a heap by the outputs of larger counters, before the heap is compressed.
ghost use Rattle.std.specs.Prelude.{◌≡◌, [], IfOk, OnOk};
ghost use Rattle.opgen_net.specs.Flow.{KeepsFlow};
ghost use Rattle.opgen_net.specs.Grown.{HasGrown};
ghost use Rattle.opgen_net.specs.Valid.{IsValid, widths};
ghost use Rattle.opgen_net.specs.WordRule.{IsThere};
ghost use Rattle.opgen_heap.specs.Standing.{AllThere};
ghost use Rattle.opgen_gpc.specs.Recipe.{with_counter, with_counters, counted, counted_if};
ghost use Rattle.opgen_gpc.specs.Kept.{TakesSix, CountersThere, KeepsSum};

use crate::columns::take_apart;
use crate::counter::Counter;
use crate::rows::rows;
use opgen_heap::Heap;
use opgen_net::Net;
use opgen_num::Memory;
use std::alloc::Global;

// A heap of the width and the constant of another, with no bit.
fn emptied(alloc: Global, heap: &Heap) -> Heap
    ensures { result ≡ record { width = heap.now.width; constant = heap.now.constant; columns = [] } }
{
    let mut empty = Heap::new(alloc, heap.width());
    empty.add_constant(heap.constant() as i128);
    empty
}

// The table of a counter, on the word of its bits.
fn add_table(alloc: Global, counter: &Counter, net: &mut Net) -> Result<usize, Memory>
    requires net { IsValid net.old }
    requires takes { TakesSix (IsThere (widths net.old.nodes)) counter.now }
    ensures ok { OnOk result (net.new ≡ (with_counter net.old counter.now).net) }
    ensures place { IfOk result (λ n. n ≡ (with_counter net.old counter.now).place) }
    ensures valid { IsValid net.new }
{
    let address = net.word(counter.bits.as_slice())?;
    net.table(address, rows(alloc, counter.twice)?)
}

// The tables of counters, and their rows in the heap.
fn add_tables(
    alloc: Global,
    counters: &[Counter],
    net: &mut Net,
    heap: &mut Heap,
) -> Result<(), Memory>
    requires net { IsValid net.old }
    requires takes { CountersThere net.old counters.now }
    ensures ok { OnOk result (with_counters (record { net = net.old; heap = heap.old }) counters.now ≡ record { net = net.new; heap = heap.new }) }
    ensures valid { IsValid net.new }
{
    'counters: for counter in counters {
        let table = add_table(alloc, counter, net)?;
        heap.add_row(table, 3, counter.column)?;
    }
    Ok(())
}

/// Counts bits of a heap together, six at a time, and answers a heap of the same sum, width and
/// constant.
///
/// While a column has six bits that are not taken, the first six are the address of a table that has
/// their number, and where five are left, the first bit of the next column counts twice beside them.
/// No bit of such a table is counted again: the answer holds the bits that are not taken, column by
/// column, and then the tables' rows. If memory runs out, the net is valid and has some of these
/// nodes.
pub fn count(alloc: Global, heap: Heap, net: &mut Net) -> Result<Heap, Memory>
    requires net { IsValid net.old }
    requires there { AllThere net.old heap.columns }
    ensures ok { OnOk result (net.new ≡ (counted net.old heap).net) }
    ensures heap { IfOk result (λ h. h ≡ (counted net.old heap).heap) }
    ensures sum { IfOk result (λ h. KeepsSum net.old heap net.new h) }
    ensures width { IfOk result (λ h. h.width ≡ heap.width) }
    ensures constant { IfOk result (λ h. h.constant ≡ heap.constant) }
    ensures there { IfOk result (λ h. AllThere net.new h.columns) }
    ensures grown { OnOk result (HasGrown net.old net.new) }
    ensures flow { OnOk result (KeepsFlow net.old.nodes net.new.nodes) }
    ensures valid { IsValid net.new }
{
    let mut counted = emptied(alloc, &heap);
    let counters = take_apart(alloc, heap.columns(), &mut counted)?;
    add_tables(alloc, counters.as_slice(), net, &mut counted)?;
    Ok(counted)
}

/// Counts bits of a heap together, as `count` does, where larger counters are asked for. Where they
/// are not, net and heap are as given.
pub fn count_if(alloc: Global, counters: bool, heap: Heap, net: &mut Net) -> Result<Heap, Memory>
    requires net { IsValid net.old }
    requires there { AllThere net.old heap.columns }
    ensures ok { OnOk result (net.new ≡ (counted_if counters net.old heap).net) }
    ensures heap { IfOk result (λ h. h ≡ (counted_if counters net.old heap).heap) }
    ensures sum { IfOk result (λ h. KeepsSum net.old heap net.new h) }
    ensures width { IfOk result (λ h. h.width ≡ heap.width) }
    ensures constant { IfOk result (λ h. h.constant ≡ heap.constant) }
    ensures there { IfOk result (λ h. AllThere net.new h.columns) }
    ensures grown { OnOk result (HasGrown net.old net.new) }
    ensures flow { OnOk result (KeepsFlow net.old.nodes net.new.nodes) }
    ensures valid { IsValid net.new }
{
    if counters {
        return count(alloc, heap, net);
    }
    Ok(heap)
}
