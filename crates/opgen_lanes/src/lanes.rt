//! A design that is run cycle by cycle in 256 streams.
ghost use Rattle.std.specs.Prelude.{ℕ, ◌≡◌, ◌<◌, ◌^◌, All, IfOk, length, map, slice_index, slice_set, unwrap_or};
ghost use Rattle.std.specs.List.{sum};
ghost use Rattle.opgen_num.specs.Words.{word};
ghost use Rattle.opgen_design.specs.Order.{IsOrderOf};
ghost use Rattle.opgen_design.specs.Run.{Cycle, input_widths, output_widths};
ghost use Rattle.opgen_design.specs.Sound.{HasNumbers, IsSignalWide, IsSound};
ghost use Rattle.opgen_streams.specs.Streams.{streams};
ghost use Rattle.opgen_lanes.specs.Banks.{HasWords, IsBank, inputs_at, widths_of, words_at, words_of};
ghost use Rattle.opgen_lanes.specs.Ready.{AreBanksOf, IsReady};
ghost use Rattle.opgen_lanes.specs.Steps.{AreInitial, AreNew, IsStepIn};

use crate::bank::{Bank, Banks, port_widths, room, signal_widths};
use crate::drivers::settle;
use crate::ports::{give_outputs, take_inputs};
use crate::registers::hand_all_on;
use crate::words::write;
use opgen_design::{Design, Signal};
use opgen_num::{Memory, Word};
use opgen_runs::evaluation_order;
use std::alloc::{AllocError, Global};
use std::marker::Model;
use std::mem;
use std::simd::prelude::*;

/// A design that is run cycle by cycle, in 256 streams at a time. Stream k is bit k mod 64 of lane k / 64.
#[derive(Drop)]
pub struct Lanes {
    design: Design,
    order: Vec<usize>,
    banks: Banks,
    next: Bank,
}

impl Model for Lanes {
    ghost use Rattle.std.specs.Coded.{codes};
    ghost use Rattle.opgen_design.specs.TreeCode.{coded_tree};
    ghost use Rattle.opgen_lanes.specs.Ready.{IsReady};
    ghost use Rattle.opgen_lanes.specs.Steps.{Running};

    ghost Value = { Running };

    ghost coded = { Prim.hlevel (codes, coded_tree) };

    ghost view = { λ l. record { design = l.design; held = l.banks.signals.vectors.items } };

    ghost invariant = { λ l. IsReady l.design l.order.items l.banks.signals l.banks.ports l.next };
}

// A signal's initial word, zeros where it has none.
fn initial_word(signal: &Signal) -> Word
    ensures { result ≡ unwrap_or signal.now.initial (word signal.now.width 0) }
{
    match signal.initial {
        Some(word) => word,
        None => Word::new(0, signal.width),
    }
}

// Puts a signal's initial word at its place, in each stream.
fn put_initial(signal: &Signal, place: usize, bank: &mut Bank)
    requires bank { IsBank bank.old }
    requires wide { IsSignalWide signal.now }
    requires place { place < length bank.old.places.items }
    requires width { slice_index (widths_of bank.old) place ≡ signal.now.width }
    ensures bank { IsBank bank.new }
    ensures widths { widths_of bank.new ≡ widths_of bank.old }
    ensures words { HasWords bank.new (λ k. slice_set (words_at bank.old k) place (unwrap_or signal.now.initial (word signal.now.width 0))) }
{
    let word = initial_word(signal);
    let mut vectors = room();
    write(word, &mut vectors[..word.width() as usize]);
    bank.store(place, &vectors);
}

// The initial words in each stream.
fn initial_words(alloc: Global, signals: &[Signal]) -> Result<Bank, AllocError>
    requires few { length signals.now < 2 ^ 32 }
    requires wide { All IsSignalWide signals.now }
    ensures bank { IfOk result (λ b. IsBank b) }
    ensures widths { IfOk result (λ b. widths_of b ≡ map (λ s. s.width) signals.now) }
    ensures words { IfOk result (λ b. HasWords b (λ _. map (λ s. unwrap_or s.initial (word s.width 0)) signals.now)) }
{
    let widths = signal_widths(alloc, signals)?;
    let mut bank = Bank::new(alloc, &widths)?;
    for place in 0..signals.len() {
        put_initial(&signals[place], place, &mut bank);
    }
    Ok(bank)
}

// An order of the drivers, the words before the first cycle, and room for the registers' next words.
fn begin(alloc: Global, design: &Design) -> Result<(Vec<usize>, Banks, Bank), Memory>
    requires { IsSound design.now }
    ensures numbers { IfOk result (λ b. HasNumbers design.now) }
    ensures ready { IfOk result (λ b. IsReady design.now b.0.items b.1.signals b.1.ports b.2) }
    ensures registers { IfOk result (λ b. AreInitial design.now b.1.signals.vectors.items) }
{
    let order = evaluation_order(alloc, design)?;
    let signals = initial_words(alloc, design.signals.as_slice())?;
    let next = initial_words(alloc, design.signals.as_slice())?;
    let widths = port_widths(alloc, design.ports.as_slice())?;
    let ports = Bank::new(alloc, &widths)?;
    Ok((order, Banks { signals, ports }, next))
}

// Runs one cycle in place: before it the banks have the registers' words and the inputs, after it those of the settled cycle, and `next`
// has the registers' next words.
fn run_cycle(design: &Design, order: &[usize], banks: &mut Banks, next: &mut Bank)
    requires sound { IsSound design.now }
    requires order { IsOrderOf design.now order.now }
    requires banks { AreBanksOf design.now banks.old.signals banks.old.ports }
    requires next { AreBanksOf design.now next.old banks.old.ports }
    ensures banks { AreBanksOf design.now banks.new.signals banks.new.ports }
    ensures next { AreBanksOf design.now next.new banks.new.ports }
    ensures cycle { let inputs = inputs_at design.now.ports banks.old.ports in
        (k : ℕ) → k < streams → Cycle design.now (words_at banks.old.signals k) (inputs k) (words_of banks.new k) (words_at next.new k) }
{
    settle(design, order, banks);
    hand_all_on(design, banks, next);
}

impl Lanes {
    /// All streams before the first cycle of a sound design, which the lanes keep, with all the room that their steps use.
    ///
    /// A design of 2^32 or more ports, signals and drivers together is answered by `Memory`.
    pub fn from_design(alloc: Global, design: Design) -> Result<Lanes, Memory>
        requires { IsSound design }
        ensures new { IfOk result (λ l. AreNew design l) }
        ensures numbers { IfOk result (λ l. HasNumbers design) }
    {
        let (order, banks, next) = begin(alloc, &design)?;
        Ok(Lanes {
            design,
            order,
            banks,
            next,
        })
    }

    /// The same of a copy of a design.
    pub fn new(alloc: Global, design: &Design) -> Result<Lanes, Memory>
        requires { IsSound design.now }
        ensures new { IfOk result (λ l. AreNew design.now l) }
        ensures numbers { IfOk result (λ l. HasNumbers design.now) }
    {
        Lanes::from_design(alloc, design.copy(alloc)?)
    }

    /// Runs one cycle of each stream: a vector for each bit of each input port gives one for each bit of each output port, ports in
    /// order and the lowest bit first. Takes no memory.
    pub fn step(&mut self, inputs: &[u64x4], outputs: &mut [u64x4])
        requires inputs { length inputs.now ≡ sum (input_widths self.old.design) }
        requires outputs { length outputs.old ≡ sum (output_widths self.old.design) }
        ensures design { self.new.design ≡ self.old.design }
        ensures steps { (k : ℕ) → k < streams → IsStepIn k self.old.design self.old.held inputs.now self.new.held outputs.new }
        ensures length { length outputs.new ≡ length outputs.old }
    {
        take_inputs(self.design.ports.as_slice(), inputs, &mut self.banks.ports);
        run_cycle(&self.design, &self.order, &mut self.banks, &mut self.next);
        give_outputs(self.design.ports.as_slice(), &self.banks.ports, outputs);
        mem::swap(&mut self.banks.signals, &mut self.next);
    }
}
