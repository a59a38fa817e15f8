//! A column of a heap during compression: a queue of bits, taken from the front and appended at the end.
ghost use Rattle.std.specs.Prelude.{◌≡◌, ◌<◌, ◌^◌, [], ◌∷◌, ◌++◌, length, slice_index_or, OnOk, OnErr};
ghost use Rattle.opgen_net.specs.declared.word_bits.WordBit.TheVariants.{Zero};

use opgen_net::WordBit;
use std::alloc::{AllocError, Global};
use std::collections::VecDeque;
use std::marker::Model;

/// A column of bits, which are taken from its front and appended to its end.
#[derive(Drop)]
pub struct Queue {
    bits: VecDeque<WordBit>,
}

impl Model for Queue {
    ghost use Rattle.std.specs.Prelude.{List};
    ghost use Rattle.opgen_net.specs.declared.word_bits.WordBit.{WordBit};

    ghost Value = { List WordBit };

    ghost view = { λ q. q.bits.items };
}

impl Queue {
    pub fn new(alloc: Global) -> Queue
        ensures { result ≡ [] }
    {
        Queue {
            bits: VecDeque::new(alloc),
        }
    }

    pub fn len(&self) -> usize
        ensures value { result ≡ length self.now }
        ensures small { result < 2 ^ 63 }
    {
        self.bits.len()
    }

    /// The bit at a place, 0 past the end.
    pub fn bit(&self, place: usize) -> WordBit
        ensures { result ≡ slice_index_or self.now place Zero }
    {
        match self.bits.get(place) {
            Some(bit) => *bit,
            None => WordBit::Zero,
        }
    }

    /// Takes the first bit out.
    pub fn take(&mut self) -> WordBit
        requires { 0 < length self.old }
        ensures { self.old ≡ result ∷ self.new }
    {
        match self.bits.pop_front() {
            Some(bit) => bit,
            None => unreachable!(),
        }
    }

    pub fn push(&mut self, bit: WordBit) -> Result<(), AllocError>
        ensures ok { OnOk result (self.new ≡ self.old ++ bit ∷ []) }
        ensures err { OnErr result (self.new ≡ self.old) }
    {
        self.bits.push_back(bit)?;
        Ok(())
    }

    pub fn append(&mut self, bits: &[WordBit]) -> Result<(), AllocError>
        ensures { OnOk result (self.new ≡ self.old ++ bits.now) }
    {
        for bit in bits {
            self.push(*bit)?;
        }
        Ok(())
    }
}
