//! Chooses which bits of a heap's columns are counted together by one counter.
ghost use Rattle.std.specs.Prelude.{◌≡◌, ◌≤◌, ◌++◌, [], false, length, drop, IfOk, OnOk};
ghost use Rattle.opgen_num.specs.declared.format.TheConstants.{MAX_WIDTH};
ghost use Rattle.opgen_gpc.specs.Counters.{sixes, after_sixes, first_bit, is_five, five_of, unless_five, untaken, apart};
ghost use Rattle.opgen_gpc.specs.Recipe.{with_column, with_columns};

use crate::counter::Counter;
use opgen_heap::Heap;
use opgen_list::Items;
use opgen_net::WordBit;
use opgen_num::Memory;
use std::alloc::{AllocError, Global};

// The counters of six bits of a column, from its first on. Returns the bits that they leave.
fn take_sixes<'a>(
    alloc: Global,
    column: u32,
    given: &'a [WordBit],
    counters: &mut Items<Counter>,
) -> Result<&'a [WordBit], AllocError>
    ensures counters { OnOk result (counters.new ≡ counters.old ++ sixes column given.now) }
    ensures left { IfOk result (λ left. left.now ≡ after_sixes given.now) }
{
    let mut left = given;
    'sixes: while left.len() >= 6 {
        let (six, after) = left.split_at(6);
        counters.push(Counter {
            column,
            twice: false,
            bits: Items::from_vec(six.to_vec(alloc)?),
        })?;
        left = after;
    }
    Ok(left)
}

// The counter of five bits that are left of a column and the first bit of the next one. Whether
// there is one is answered.
fn take_five(
    alloc: Global,
    column: u32,
    left: &[WordBit],
    next: Option<WordBit>,
    counters: &mut Items<Counter>,
) -> Result<bool, AllocError>
    ensures taken { IfOk result (λ taken. taken ≡ is_five left.now next) }
    ensures counters { OnOk result (counters.new ≡ counters.old ++ five_of column left.now next) }
{
    let Some(first) = next else {
        return Ok(false);
    };
    if left.len() != 5 {
        return Ok(false);
    }
    let mut bits = Vec::new(alloc);
    bits.push(first)?;
    bits.extend_from_slice(left)?;
    counters.push(Counter {
        column,
        twice: true,
        bits: Items::from_vec(bits),
    })?;
    Ok(true)
}

// Appends bits to a column of a heap.
fn keep(kept: &mut Heap, column: u32, bits: &[WordBit]) -> Result<(), Memory>
    ensures { OnOk result (kept.new ≡ with_column kept.old column bits.now) }
{
    'bits: for bit in bits {
        kept.append(*bit, column)?;
    }
    Ok(())
}

// The counters of a column. Whether one of them takes the first bit of the next column is answered.
fn take_column(
    alloc: Global,
    column: u32,
    given: &[WordBit],
    next: Option<WordBit>,
    counters: &mut Items<Counter>,
    kept: &mut Heap,
) -> Result<bool, Memory>
    ensures taken { IfOk result (λ taken. taken ≡ is_five (after_sixes given.now) next) }
    ensures counters { OnOk result (counters.new ≡ counters.old ++ (sixes column given.now ++ five_of column (after_sixes given.now) next)) }
    ensures kept { OnOk result (kept.new ≡ with_column kept.old column (unless_five (after_sixes given.now) next)) }
{
    let left = take_sixes(alloc, column, given, counters)?;
    let taken = take_five(alloc, column, left, next, counters)?;
    if !taken {
        keep(kept, column, left)?;
    }
    Ok(taken)
}

// The first bit of a column, if it has one.
fn first_of(columns: &[Items<WordBit>], place: usize) -> Option<WordBit>
    ensures { result ≡ first_bit (drop place columns.now) }
{
    let column = columns.get(place)?;
    column.as_slice().first().copied()
}

// A column but for its first bit, where that is taken.
fn untaken_of(bits: &[WordBit], taken: bool) -> &[WordBit]
    ensures { result.now ≡ untaken taken bits.now }
{
    match bits {
        [_, rest @ ..] if taken => rest,
        _ => bits,
    }
}

/// The counters of a heap's columns, from the lowest up. The bits that none of them takes are added to another heap.
pub fn take_apart(
    alloc: Global,
    columns: &[Items<WordBit>],
    kept: &mut Heap,
) -> Result<Items<Counter>, Memory>
    requires few { length columns.now ≤ MAX_WIDTH }
    ensures counters { IfOk result (λ counters. counters ≡ (apart 0 false columns.now).counters) }
    ensures kept { OnOk result (kept.new ≡ with_columns kept.old 0 (apart 0 false columns.now).left) }
{
    let mut counters = Items::new(alloc);
    let mut taken = false;
    'columns: for place in 0..columns.len() {
        let given = untaken_of(columns[place].as_slice(), taken);
        let next = first_of(columns, place + 1);
        taken = take_column(alloc, place as u32, given, next, &mut counters, kept)?;
    }
    Ok(counters)
}
