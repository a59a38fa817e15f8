//! Adds a constant multiple of a node to a bit heap: one table for each chunk of the node's bits, and a constant.
ghost use Rattle.std.specs.Prelude.{◌≡◌, ◌≢◌, ◌+◌, ◌*◌, ◌^◌, ◌<◌, ◌≤◌, pos, ◌+ℤ◌, ◌<ℤ◌, length, unsigned_abs, All, OnOk};
ghost use Rattle.opgen_num.specs.declared.format.TheConstants.{MAX_INPUT, MAX_WIDTH};
ghost use Rattle.opgen_heap.specs.Adding.{residue};
ghost use Rattle.opgen_heap.specs.Standing.{AllThere};
ghost use Rattle.opgen_net.specs.Flow.{flow};
ghost use Rattle.opgen_net.specs.Grown.{HasGrown};
ghost use Rattle.opgen_net.specs.Valid.{IsValid};
ghost use Rattle.opgen_kcm.specs.Chunks.{chunk_count, chunk_word, digit_of, number};
ghost use Rattle.opgen_kcm.specs.Entries.{in_guard_units, entry, all_entries, offsets, greatest_of, shape_of};
ghost use Rattle.opgen_kcm.specs.Recipe.{with_table, with_entries, with_rows, input_width, HasTermsMore, HasRoom, HasNarrowRows};
ghost use Rattle.opgen_kcm.specs.Multiple.{HasRisen, SumsHave};

use crate::chunk::{CHUNK_WIDTH, Chunk};
use crate::table::{
    Shape, entries, greatest_of, in_guard_units, least_of, offsets, rows_in, shape_of,
};
use opgen_heap::Heap;
use opgen_net::Net;
use opgen_num::{Memory, Ratio};
use std::alloc::Global;

// A table of offsets on a chunk of an input, and its rows in the heap. Where all offsets are 0
// there is no table.
fn add_table(
    alloc: Global,
    input: usize,
    chunk: Chunk,
    offsets: &[u128],
    net: &mut Net,
    heap: &mut Heap,
) -> Result<(), Memory>
    requires net { IsValid net.old }
    requires there { chunk.low + chunk.width ≤ input_width net.old input }
    requires some { 1 ≤ chunk.width }
    requires few { chunk.width ≤ 6 }
    requires short { chunk.low + chunk.width ≤ MAX_INPUT }
    requires offsets { length offsets.now ≡ 2 ^ chunk.width }
    requires small { All (λ n. n < 2 ^ 127) offsets.now }
    requires narrow { (shape_of offsets.now).width ≤ MAX_WIDTH }
    ensures net { OnOk result (net.new ≡ (with_table input chunk offsets.now (record { net = net.old; heap = heap.old })).net) }
    ensures heap { OnOk result (heap.new ≡ (with_table input chunk offsets.now (record { net = net.old; heap = heap.old })).heap) }
    ensures valid { IsValid net.new }
{
    let greatest = greatest_of(offsets);
    if greatest == 0 {
        return Ok(());
    }
    let shape = shape_of(offsets, greatest);
    let rows = rows_in(alloc, shape, offsets)?;
    let bits = chunk.bits_of(alloc, input)?;
    let address = net.word(bits.as_slice())?;
    let table = net.table(address, rows)?;
    heap.add_row(table, shape.width, shape.zeros)
}

// The table of a chunk. Its least entry goes to the heap's constant.
fn add_chunk(
    alloc: Global,
    q: Ratio,
    input: usize,
    chunk: Chunk,
    net: &mut Net,
    heap: &mut Heap,
) -> Result<(), Memory>
    requires positive { pos 0 <ℤ q.den }
    requires room { HasRoom q (chunk.low + chunk.width) }
    requires net { IsValid net.old }
    requires there { chunk.low + chunk.width ≤ input_width net.old input }
    requires some { 1 ≤ chunk.width }
    requires few { chunk.width ≤ 6 }
    requires short { chunk.low + chunk.width ≤ MAX_INPUT }
    requires narrow { (shape_of (offsets (all_entries q chunk))).width ≤ MAX_WIDTH }
    ensures net { OnOk result (net.new ≡ (with_entries input chunk (all_entries q chunk) (record { net = net.old; heap = heap.old })).net) }
    ensures heap { OnOk result (heap.new ≡ (with_entries input chunk (all_entries q chunk) (record { net = net.old; heap = heap.old })).heap) }
    ensures more { OnOk result (HasTermsMore (record { net = net.old; heap = heap.old }) (record { net = net.new; heap = heap.new })) }
    ensures sum { OnOk result (SumsHave (record { net = net.old; heap = heap.old }) (record { net = net.new; heap = heap.new })
        (λ inputs t before after. let digit = digit_of chunk (chunk_word chunk (flow net.old.nodes inputs input t)) in
        after ≡ residue (pos before +ℤ entry q chunk digit) (2 ^ heap.old.width))) }
    ensures valid { IsValid net.new }
{
    let entries = entries(alloc, q, chunk)?;
    let least = least_of(&entries);
    heap.add_constant(least);
    let offsets = offsets(alloc, &entries, least)?;
    add_table(alloc, input, chunk, &offsets, net, heap)?;
    Ok(())
}

/// Adds a multiple of a node to a heap: `q` times the node's number, in units of which 2 to `guard`
/// make one. Where the heap's bits stand in the net, its sum rises by that multiple, but for half a
/// unit for each chunk of six bits, and all its bits stand there.
///
/// The node is cut into chunks of six bits, the last of which is signed where the node is. Each
/// chunk addresses a table of its digits' multiples, rounded to whole units. The tables are nodes of
/// the net, and their bits and a constant stand in the heap. If memory runs out, the net is valid,
/// and some of the tables stand in it.
pub fn rows_of(
    alloc: Global,
    q: Ratio,
    guard: u32,
    input: usize,
    signed: bool,
    net: &mut Net,
    heap: &mut Heap,
) -> Result<(), Memory>
    requires positive { pos 0 <ℤ q.den }
    requires some { q.num ≢ pos 0 }
    requires net { IsValid net.old }
    requires there { input < length net.old.nodes }
    requires short { input_width net.old input ≤ MAX_INPUT }
    requires room { unsigned_abs q.num * 2 ^ (input_width net.old input + guard + 1) + unsigned_abs q.den < 2 ^ 126 }
    requires narrow { HasNarrowRows (in_guard_units q guard) (input_width net.old input) signed }
    ensures net { OnOk result (net.new ≡ (with_rows q guard input signed (record { net = net.old; heap = heap.old })).net) }
    ensures heap { OnOk result (heap.new ≡ (with_rows q guard input signed (record { net = net.old; heap = heap.old })).heap) }
    ensures risen { let width = input_width net.old input in
        OnOk result (SumsHave (record { net = net.old; heap = heap.old }) (record { net = net.new; heap = heap.new })
        (λ inputs t. HasRisen q guard (chunk_count width) (number signed width (flow net.old.nodes inputs input t)) heap.old.width)) }
    ensures grown { OnOk result (HasGrown net.old net.new) }
    ensures bits { OnOk result (AllThere net.old heap.old.columns → AllThere net.new heap.new.columns) }
    ensures width { OnOk result (heap.new.width ≡ heap.old.width) }
    ensures valid { IsValid net.new }
{
    let width = net.width_of(input);
    let units = in_guard_units(q, guard);
    'chunks: for place in 0..width.div_ceil(CHUNK_WIDTH) {
        let chunk = Chunk::at(width, signed, place);
        add_chunk(alloc, units, input, chunk, net, heap)?;
    }
    Ok(())
}
