//! Runs a design by a walk over its drivers with words of up to 128 bits, in an order that is found once.
ghost use Rattle.std.specs.Prelude.{◌≡◌, IfOk, length, map, unwrap_or};
ghost use Rattle.opgen_num.specs.Words.{FitWidths, word};
ghost use Rattle.opgen_design.specs.Order.{IsOrderOf};
ghost use Rattle.opgen_design.specs.Run.{at_ports, initial_words, input_widths, is_out};
ghost use Rattle.opgen_design.specs.Sound.{IsSound, port_widths};
ghost use Rattle.opgen_runs.specs.Registers.{SameRegisters};
ghost use Rattle.opgen_runs.specs.Step.{IsStep};
ghost use Rattle.opgen_sim.specs.Engines.{IsWalkerOf};

use crate::cycle::run_cycle;
use crate::numbers::{give_outputs, take_inputs};
use crate::tables::{Rows, tables};
use opgen_design::{Design, Port, Signal};
use opgen_num::Word;
use std::alloc::{AllocError, Global};
use std::mem;

/// A design's words, for a run of its drivers one after another, whatever their widths are.
#[derive(Drop)]
pub struct Walker {
    pub order: Vec<usize>,
    pub tables: Vec<Rows>,
    pub words: Vec<Word>,
    pub next: Vec<Word>,
    pub ports: Vec<Word>,
}

// The initial words; zeros where a signal has none.
fn initial_words(alloc: Global, signals: &[Signal]) -> Result<Vec<Word>, AllocError>
    ensures { IfOk result (λ v. v.items ≡ map (λ s. unwrap_or s.initial (word s.width 0)) signals.now) }
{
    let mut words = Vec::new(alloc);
    for signal in signals {
        words.push(match signal.initial {
            Some(word) => word,
            None => Word::new(0, signal.width),
        })?;
    }
    Ok(words)
}

fn zeros(alloc: Global, ports: &[Port]) -> Result<Vec<Word>, AllocError>
    ensures { IfOk result (λ v. v.items ≡ map (λ p. word p.width 0) ports.now) }
{
    let mut words = Vec::new(alloc);
    for port in ports {
        words.push(Word::new(0, port.width))?;
    }
    Ok(words)
}

impl Walker {
    /// The words before the first cycle of a sound design, with all the room that its steps use.
    ///
    /// `order` is an order of evaluation, as [`Design::order`] finds it.
    pub fn new(alloc: Global, design: &Design, order: Vec<usize>) -> Result<Walker, AllocError>
        requires sound { IsSound design.now }
        requires order { IsOrderOf design.now order.items }
        ensures walker { IfOk result (λ w. IsWalkerOf design.now w) }
        ensures registers { IfOk result (λ w. SameRegisters design.now w.words.items (initial_words design.now.signals)) }
    {
        let tables = tables(alloc, design.drivers.as_slice())?;
        let words = initial_words(alloc, design.signals.as_slice())?;
        let next = initial_words(alloc, design.signals.as_slice())?;
        let ports = zeros(alloc, design.ports.as_slice())?;
        Ok(Walker {
            order,
            tables,
            words,
            next,
            ports,
        })
    }

    /// Runs one cycle: a number for each input port, below 2 to its width, gives a number for each output port. Takes no memory.
    pub fn step(&mut self, design: &Design, inputs: &[u128], outputs: &mut [u128])
        requires walker { IsWalkerOf design.now self.old }
        requires inputs { FitWidths (input_widths design.now) inputs.now }
        requires outputs { length outputs.old ≡ length (at_ports is_out design.now.ports (port_widths design.now)) }
        ensures walker { IsWalkerOf design.now self.new }
        ensures step { IsStep design.now self.old.words.items inputs.now self.new.words.items outputs.new }
    {
        take_inputs(design.ports.as_slice(), inputs, &mut self.ports);
        run_cycle(
            design,
            &self.order,
            &self.tables,
            &mut self.words,
            &mut self.ports,
            &mut self.next,
        );
        give_outputs(design.ports.as_slice(), &self.ports, outputs);
        mem::swap(&mut self.words, &mut self.next);
    }
}
