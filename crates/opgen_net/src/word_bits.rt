//! Makes a node from given bits: reuses a node that has just these bits, or appends one that joins constants and slices.
ghost use Rattle.std.specs.Prelude.{◌≡◌, ◌*◌, ◌^◌, ◌<◌, ◌++◌, [], ◌∷◌, All, IfOk, OnOk, OnErr, length, map, reverse, slice_index};
ghost use Rattle.opgen_num.specs.Words.{digit};
ghost use Rattle.opgen_net.specs.Flow.{KeepsFlow};
ghost use Rattle.opgen_design.specs.Plain.{plain};
ghost use Rattle.opgen_net.specs.Valid.{IsValid, LiesWithin, FitsNodes, widths};
ghost use Rattle.opgen_design.specs.Value.{IsWidth};
ghost use Rattle.opgen_net.specs.WordRule.{IsThere, HasBits, joined, alone, above, runs, RunIsThere, run_tree, word_tree, is_whole, with_word, FirstHasAtMost, with_runs};

use crate::{Class, Expr, Net, Op, Slice};
use opgen_num::{Memory, Word};
use std::alloc::{AllocError, Global};

/// A bit that a word is to have: 0, 1, or a bit of a node.
#[derive(Clone, Copy, Debug, PartialEq, Eq)]
pub enum WordBit {
    Zero,
    One,
    Of { node: usize, index: u32 },
}

/// Neighbouring bits of a word that stand in one piece: constants, or neighbours in one node.
#[derive(Clone, Copy)]
pub enum Piece {
    Bits(Word),
    Part(Slice),
}

// The number that a bit adds at a place of a word.
fn weight(bit: bool, place: u32) -> u128
    requires { place < 128 }
    ensures { result ≡ digit bit * 2 ^ place }
{
    if bit { 1u128 << place } else { 0 }
}

// A word with a bit more above its highest.
fn with_top(word: Word, bit: bool) -> Word
    requires { length word < 128 }
    ensures { result ≡ word ++ bit ∷ [] }
{
    let width = word.width();
    Word::new(word.bits() + weight(bit, width), width + 1)
}

// A bit by itself.
fn alone(bit: WordBit) -> Piece
    ensures { result ≡ alone bit }
{
    match bit {
        WordBit::Zero => Piece::Bits(Word::new(0, 1)),
        WordBit::One => Piece::Bits(Word::new(1, 1)),
        WordBit::Of { node, index } => Piece::Part(Slice {
            node,
            high: index,
            low: index,
        }),
    }
}

// The run with the bit above it, where they stand in one piece.
fn join(bit: WordBit, run: &Piece) -> Option<Piece>
    requires { FirstHasAtMost 127 (run.now ∷ []) }
    ensures { result ≡ joined bit run.now }
{
    match (bit, run) {
        (WordBit::Zero, Piece::Bits(word)) => Some(Piece::Bits(with_top(*word, false))),
        (WordBit::One, Piece::Bits(word)) => Some(Piece::Bits(with_top(*word, true))),
        (WordBit::Of { node, index }, Piece::Part(slice)) => {
            if node == slice.node && index.checked_sub(1) == Some(slice.high) {
                Some(Piece::Part(Slice {
                    node,
                    high: index,
                    low: slice.low,
                }))
            } else {
                None
            }
        }
        _ => None,
    }
}

// Puts a bit above the runs, of which the last is the highest.
fn put(runs: &mut Vec<Piece>, bit: WordBit) -> Result<(), AllocError>
    requires { FirstHasAtMost 127 (reverse runs.old.items) }
    ensures { OnOk result (reverse runs.new.items ≡ above bit (reverse runs.old.items)) }
{
    let Some(run) = runs.pop() else {
        runs.push(alone(bit))?;
        return Ok(());
    };
    match join(bit, &run) {
        Some(longer) => {
            runs.push(longer)?;
            Ok(())
        }
        None => {
            runs.push(run)?;
            runs.push(alone(bit))?;
            Ok(())
        }
    }
}

// The fewest runs that the bits fall into, the highest first.
fn runs_of(alloc: Global, bits: &[WordBit]) -> Result<Vec<Piece>, AllocError>
    requires { length bits.now < 128 }
    ensures { IfOk result (λ v. v.items ≡ runs bits.now) }
{
    let mut found = Vec::new(alloc);
    let mut rest = bits.len();
    while rest > 0 {
        rest -= 1;
        put(&mut found, bits[rest])?;
    }
    found.reverse();
    Ok(found)
}

impl Net {
    /// Gives a node with these bits, the highest first, and answers its number: a node that is there where they are all its bits
    /// in their order, and otherwise a new one.
    pub fn word(&mut self, bits: &[WordBit]) -> Result<usize, Memory>
        requires net { IsValid self.old }
        requires width { IsWidth (length bits.now) }
        requires there { All (IsThere (widths self.old.nodes)) bits.now }
        ensures ok { OnOk result (self.new ≡ record self.old { nodes = (with_word self.old.nodes bits.now).nodes }) }
        ensures place { IfOk result (λ n. n ≡ (with_word self.old.nodes bits.now).place) }
        ensures bits { IfOk result (λ n. HasBits self.old bits.now self.new.nodes n) }
        ensures width { IfOk result (λ n. slice_index (widths self.new.nodes) n ≡ length bits.now) }
        ensures err { OnErr result (self.new ≡ self.old) }
        ensures valid { IsValid self.new }
        ensures flow { KeepsFlow self.old.nodes self.new.nodes }
    {
        let found = runs_of(self.nodes.allocator(), bits)?;
        let place = self.word_of_runs(&found, bits.len() as u32)?;
        Ok(place)
    }

    // Gives a node with the bits of these runs, of which there are `width`.
    fn word_of_runs(&mut self, runs: &[Piece], width: u32) -> Result<usize, Memory>
        requires net { IsValid self.old }
        requires there { All (RunIsThere (widths self.old.nodes)) runs.now }
        requires fits { FitsNodes (widths self.old.nodes) width (word_tree (widths self.old.nodes) runs.now) }
        ensures ok { OnOk result (self.new ≡ record self.old { nodes = (with_runs self.old.nodes width runs.now).nodes }) }
        ensures place { IfOk result (λ n. n ≡ (with_runs self.old.nodes width runs.now).place) }
        ensures err { OnErr result (self.new ≡ self.old) }
        ensures valid { IsValid self.new }
        ensures flow { KeepsFlow self.old.nodes self.new.nodes }
    {
        match runs {
            [Piece::Bits(word)] => {
                let place = self.constant(*word)?;
                Ok(place)
            }
            [Piece::Part(slice)] if self.is_whole(*slice) => Ok(slice.node),
            _ => {
                let expr = self.expression(runs)?;
                let place = self.cells(Class::Wire, width, expr)?;
                Ok(place)
            }
        }
    }

    // Whether a slice has all bits of its node.
    fn is_whole(&self, slice: Slice) -> bool
        requires net { IsValid self.now }
        requires lies { LiesWithin (widths self.now.nodes) slice }
        ensures { result ≡ is_whole (widths self.now.nodes) slice }
    {
        slice.low == 0 && slice.high + 1 == self.width_of(slice.node)
    }

    // A run as an operand: the name of a whole node, a part of another, or constants.
    fn operand(&self, run: &Piece) -> Expr
        requires net { IsValid self.now }
        requires there { RunIsThere (widths self.now.nodes) run.now }
        ensures { plain result ≡ run_tree (widths self.now.nodes) run.now }
    {
        match run {
            Piece::Bits(word) => Expr::Bits(*word),
            Piece::Part(slice) => {
                if self.is_whole(*slice) {
                    Expr::Name(slice.node)
                } else {
                    Expr::Part(*slice)
                }
            }
        }
    }

    // Each run as an operand, in their order.
    fn operands(&self, runs: &[Piece]) -> Result<Vec<Expr>, AllocError>
        requires net { IsValid self.now }
        requires there { All (RunIsThere (widths self.now.nodes)) runs.now }
        ensures { IfOk result (λ v. map plain v.items ≡ map (run_tree (widths self.now.nodes)) runs.now) }
    {
        let mut found = Vec::new(self.nodes.allocator());
        for run in runs {
            found.push(self.operand(run))?;
        }
        Ok(found)
    }

    // One run stands by itself, and several stand in a chain.
    fn expression(&self, runs: &[Piece]) -> Result<Expr, AllocError>
        requires net { IsValid self.now }
        requires there { All (RunIsThere (widths self.now.nodes)) runs.now }
        ensures { IfOk result (λ e. plain e ≡ word_tree (widths self.now.nodes) runs.now) }
    {
        match runs {
            [run] => Ok(self.operand(run)),
            _ => {
                let operands = self.operands(runs)?;
                Ok(Expr::Chain(Op::Cat, operands))
            }
        }
    }
}
