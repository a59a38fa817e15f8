//! Compresses a bit heap to one node of a net that has its sum, by a compressor tree and a final adder.
ghost use Rattle.std.specs.Prelude.{◌≡◌, ◌≤◌, ◌<◌, ◌^◌, ◌++◌, length, slice_index, slice_index_or, IfOk, OnOk, []};
ghost use Rattle.opgen_net.specs.Flow.{KeepsFlow};
ghost use Rattle.opgen_net.specs.Grown.{HasGrown};
ghost use Rattle.opgen_net.specs.Valid.{IsValid, widths};
ghost use Rattle.opgen_compress.specs.Recipe.{one_if, all_columns, compressed};
ghost use Rattle.opgen_heap.specs.Standing.{AllThere};
ghost use Rattle.opgen_compress.specs.Kept.{IsSumOf};

use crate::passes::lower;
use crate::queue::Queue;
use crate::rows::finish;
use opgen_heap::Heap;
use opgen_list::Items;
use opgen_net::{Net, WordBit};
use opgen_num::Memory;
use std::alloc::{AllocError, Global};

// A column of a heap, no bits where there is none, and 1 at its end where the constant's digit is 1.
fn column_at(
    alloc: Global,
    columns: &[Items<WordBit>],
    place: usize,
    one: bool,
) -> Result<Queue, AllocError>
    ensures { IfOk result (λ q. q ≡ slice_index_or columns.now place [] ++ one_if one) }
{
    let mut queue = Queue::new(alloc);
    if let Some(bits) = columns.get(place) {
        queue.append(bits.as_slice())?;
    }
    if one {
        queue.push(WordBit::One)?;
    }
    Ok(queue)
}

// As many columns as the heap is wide, with the bits of its constant at their ends.
fn columns_of(alloc: Global, heap: &Heap) -> Result<Vec<Queue>, AllocError>
    ensures all { IfOk result (λ all. all.items ≡ all_columns heap.now) }
    ensures few { length heap.now.columns ≤ heap.now.width }
    ensures below { heap.now.constant < 2 ^ heap.now.width }
{
    let columns = heap.columns();
    let mut left = heap.constant();
    let mut all = Vec::new(alloc);
    'columns: for place in 0..heap.width() {
        all.push(column_at(alloc, columns, place as usize, left % 2 == 1)?)?;
        left /= 2;
    }
    Ok(all)
}

/// Adds the bits and the constant of a heap, and answers the number of a node of the heap's width that has the sum.
///
/// The nodes are those of a compressor tree: full and half adders bring the columns down to two bits each, over heights of which
/// each is one and a half times the next one, and the two rows that are left are added. If memory runs out, the net is valid and
/// has some of these nodes.
pub fn compress(alloc: Global, heap: Heap, net: &mut Net) -> Result<usize, Memory>
    requires net { IsValid net.old }
    requires there { AllThere net.old heap.columns }
    ensures ok { OnOk result (net.new ≡ (compressed net.old heap).net) }
    ensures place { IfOk result (λ n. n ≡ (compressed net.old heap).place) }
    ensures sum { IfOk result (λ n. IsSumOf net.old heap net.new.nodes n) }
    ensures width { IfOk result (λ n. slice_index (widths net.new.nodes) n ≡ heap.width) }
    ensures grown { OnOk result (HasGrown net.old net.new) }
    ensures flow { OnOk result (KeepsFlow net.old.nodes net.new.nodes) }
    ensures valid { IsValid net.new }
{
    let width = heap.width();
    let columns = columns_of(alloc, &heap)?;
    let rows = lower(alloc, columns, net)?;
    let answer = finish(alloc, width, &rows, net)?;
    Ok(answer)
}
