//! Bit heaps: columns of weighted bits of a net's nodes, and a constant, that are to be added modulo a power of two.
ghost use Rattle.std.specs.Prelude.{◌≡◌, ◌+◌, ◌*◌, ◌%◌, ◌^◌, ◌<◌, ◌≤◌, [], ◌++◌, ◌-◌, length, take, replicate, OnOk, OnErr};
ghost use Rattle.opgen_num.specs.declared.format.TheConstants.{MAX_WIDTH};
ghost use Rattle.opgen_design.specs.Value.{IsWidth};
ghost use Rattle.opgen_net.specs.declared.word_bits.WordBit.{WordBit};
ghost use Rattle.opgen_net.specs.declared.word_bits.WordBit.TheVariants.{Of};
ghost use Rattle.opgen_heap.specs.Sum.{Gains, bit_value, row_value};
ghost use Rattle.opgen_heap.specs.Adding.{with_bit_at, with_bit, with_row, residue, with_constant, GainsWhole};

use opgen_list::Items;
use opgen_net::WordBit;
use opgen_num::Memory;
use std::alloc::{AllocError, Global};
use std::marker::Model;

/// A sum of bits and a constant, modulo 2 to its width. A bit in column `i` counts 2 to `i`.
#[derive(Drop)]
pub struct Heap {
    width: u32,
    constant: u128,
    columns: Vec<Items<WordBit>>,
}

impl Model for Heap {
    ghost use Rattle.std.specs.Prelude.{◌≤◌, ◌<◌, ◌^◌, length};
    ghost use Rattle.opgen_design.specs.Value.{IsWidth};
    ghost use Rattle.opgen_heap.specs.Contents.{Contents};

    ghost Value = { Contents };

    ghost view = { λ h. record { width = h.width; constant = h.constant; columns = h.columns.items } };

    ghost invariant = { λ h. IsWidth h.width × (h.constant < 2 ^ h.width) × (length h.columns.items ≤ h.width) };
}

// Appends empty columns until there are so many.
fn lengthen(columns: &mut Vec<Items<WordBit>>, count: usize) -> Result<(), AllocError>
    ensures ok { OnOk result (columns.new.items ≡ columns.old.items ++ replicate (count - length columns.old.items) []) }
    ensures err { take (length columns.old.items) columns.new.items ≡ columns.old.items }
{
    while columns.len() < count {
        let column = Items::new(*columns.allocator());
        columns.push(column)?;
    }
    Ok(())
}

// Appends a bit to the end of a column.
fn append_at(
    columns: &mut Vec<Items<WordBit>>,
    place: usize,
    bit: WordBit,
) -> Result<(), AllocError>
    requires { place < MAX_WIDTH }
    ensures ok { OnOk result (columns.new.items ≡ with_bit_at columns.old.items place bit) }
    ensures err { OnErr result (take (length columns.old.items) columns.new.items ≡ columns.old.items) }
{
    lengthen(columns, place + 1)?;
    columns[place].push(bit)?;
    Ok(())
}

// What is left of a whole number by a division by 2 to a width.
fn modulo(value: i128, width: u32) -> u128
    requires { width ≤ MAX_WIDTH }
    ensures value { result ≡ residue value (2 ^ width) }
    ensures below { result < 2 ^ width }
{
    value.rem_euclid(1 << width).unsigned_abs()
}

impl Heap {
    /// A heap of a width in bits, with no bit and the constant 0.
    pub fn new(alloc: Global, width: u32) -> Heap
        requires width { IsWidth width }
        ensures { result ≡ record { width = width; constant = 0; columns = [] } }
    {
        Heap {
            width,
            constant: 0,
            columns: Vec::new(alloc),
        }
    }

    /// Appends a bit to column `weight`. A column of the heap's width or more adds nothing.
    pub fn append(&mut self, bit: WordBit, weight: u32) -> Result<(), Memory>
        ensures ok { OnOk result (self.new ≡ with_bit self.old bit weight) }
        ensures sum { OnOk result (Gains self.old (bit_value bit weight) self.new) }
        ensures err { OnErr result (self.new ≡ self.old) }
    {
        if weight >= self.width {
            return Ok(());
        }
        let before = self.columns.len();
        match append_at(&mut self.columns, weight as usize, bit) {
            Ok(()) => Ok(()),
            Err(refused) => {
                self.columns.truncate(before);
                Err(refused.into())
            }
        }
    }

    /// Appends the bit `index` of a node to column `weight`. A column of the heap's width or more adds nothing.
    pub fn add_bit(&mut self, node: usize, index: u32, weight: u32) -> Result<(), Memory>
        ensures ok { OnOk result (self.new ≡ with_bit self.old (Of node index) weight) }
        ensures sum { OnOk result (Gains self.old (bit_value (Of node index) weight) self.new) }
        ensures err { OnErr result (self.new ≡ self.old) }
    {
        self.append(WordBit::Of { node, index }, weight)
    }

    /// Adds the bits 0 to `width - 1` of a node, bit 0 to column `weight` and each other one to the next column.
    /// Where memory runs out, some of them may have been added.
    pub fn add_row(&mut self, node: usize, width: u32, weight: u32) -> Result<(), Memory>
        ensures ok { OnOk result (self.new ≡ with_row self.old node width weight) }
        ensures sum { OnOk result (Gains self.old (row_value node width weight) self.new) }
    {
        let kept = width.min(self.width.saturating_sub(weight));
        for index in 0..kept {
            self.add_bit(node, index, weight + index)?;
        }
        Ok(())
    }

    /// Adds a whole number to the constant, modulo 2 to the heap's width.
    pub fn add_constant(&mut self, value: i128)
        ensures value { self.new ≡ with_constant self.old value }
        ensures sum { GainsWhole self.old value self.new }
    {
        self.constant = (self.constant + modulo(value, self.width)) % (1 << self.width);
    }

    /// The columns from 0 up. A column past their end holds no bit.
    pub fn columns(&self) -> &[Items<WordBit>]
        ensures value { result.now ≡ self.now.columns }
        ensures few { length result.now ≤ self.now.width }
    {
        &self.columns
    }

    pub fn constant(&self) -> u128
        ensures value { result ≡ self.now.constant }
        ensures below { result < 2 ^ self.now.width }
    {
        self.constant
    }

    pub fn width(&self) -> u32
        ensures value { result ≡ self.now.width }
        ensures is_width { IsWidth result }
    {
        self.width
    }
}
