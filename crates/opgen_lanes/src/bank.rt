//! Words of 256 streams, a vector for each bit.
ghost use Rattle.std.specs.Prelude.{◌≡◌, ◌<◌, ◌≤◌, ◌^◌, All, IfOk, length, map, slice_index, slice_set, take};
ghost use Rattle.opgen_num.specs.declared.format.TheConstants.{MAX_WIDTH};
ghost use Rattle.opgen_design.specs.Value.{word_at};
ghost use Rattle.opgen_streams.specs.Streams.{word_in};
ghost use Rattle.opgen_lanes.specs.Banks.{HasWords, IsBank, widths_of, words_at};
ghost use Rattle.opgen_lanes.specs.Words.{HaveWord};

use opgen_design::{Port, Signal};
use opgen_num::MAX_WIDTH;
use std::alloc::{AllocError, Global};
use std::simd::prelude::*;

/// Where the vectors of a word's bits stand.
#[derive(Clone, Copy)]
pub struct Place {
    pub start: usize,
    pub width: usize,
}

/// Words of 256 streams: a vector for each bit, one word after another.
#[derive(Drop)]
pub struct Bank {
    pub places: Vec<Place>,
    pub vectors: Vec<u64x4>,
}

/// The words of a design's signals, and those of its ports.
#[derive(Drop)]
pub struct Banks {
    pub signals: Bank,
    pub ports: Bank,
}

/// Room for one word.
pub fn room() -> [u64x4; MAX_WIDTH as usize]
    ensures { length result ≡ MAX_WIDTH }
{
    [u64x4::splat(0); MAX_WIDTH as usize]
}

/// The widths of signals.
pub fn signal_widths(alloc: Global, signals: &[Signal]) -> Result<Vec<u32>, AllocError>
    ensures { IfOk result (λ ws. ws.items ≡ map (λ s. s.width) signals.now) }
{
    let mut widths = Vec::new(alloc);
    for signal in signals {
        widths.push(signal.width)?;
    }
    Ok(widths)
}

/// The widths of ports.
pub fn port_widths(alloc: Global, ports: &[Port]) -> Result<Vec<u32>, AllocError>
    ensures { IfOk result (λ ws. ws.items ≡ map (λ p. p.width) ports.now) }
{
    let mut widths = Vec::new(alloc);
    for port in ports {
        widths.push(port.width)?;
    }
    Ok(widths)
}

impl Bank {
    /// Words of these widths.
    pub fn new(alloc: Global, widths: &[u32]) -> Result<Bank, AllocError>
        requires few { length widths.now < 2 ^ 32 }
        requires narrow { All (λ w. w ≤ MAX_WIDTH) widths.now }
        ensures bank { IfOk result (λ b. IsBank b) }
        ensures widths { IfOk result (λ b. widths_of b ≡ widths.now) }
    {
        let mut places = Vec::new(alloc);
        let mut start = 0;
        for width in widths {
            let width = *width as usize;
            places.push(Place { start, width })?;
            start += width;
        }
        let vectors = vec![in alloc; u64x4::splat(0); start]?;
        Ok(Bank { places, vectors })
    }

    /// Puts the lowest vectors of a slice at a word's place.
    pub fn store(&mut self, at: usize, word: &[u64x4])
        requires bank { IsBank self.old }
        requires at { at < length self.old.places.items }
        requires room { slice_index (widths_of self.old) at ≤ length word.now }
        ensures places { self.new.places ≡ self.old.places }
        ensures bank { IsBank self.new }
        ensures words { let new = take (slice_index (widths_of self.old) at) word.now in
            HasWords self.new (λ k. slice_set (words_at self.old k) at (word_in new k)) }
    {
        let place = self.places[at];
        self.vectors[place.start..place.start + place.width].copy_from_slice(&word[..place.width]);
    }

    /// The vectors of a word.
    pub fn word(&self, at: usize) -> &[u64x4]
        requires bank { IsBank self.now }
        requires at { at < length self.now.places.items }
        ensures width { length result.now ≡ slice_index (widths_of self.now) at }
        ensures word { HaveWord result.now (λ k. word_at (words_at self.now k) at) }
    {
        let place = self.places[at];
        &self.vectors[place.start..place.start + place.width]
    }
}
