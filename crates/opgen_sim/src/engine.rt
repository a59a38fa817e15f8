//! Chooses what runs a design: a machine with a list of steps, or a walk over the drivers.
ghost use Rattle.std.specs.Prelude.{◌≡◌, IfOk, length};
ghost use Rattle.opgen_num.specs.Words.{FitWidths};
ghost use Rattle.opgen_design.specs.Order.{IsOrderOf};
ghost use Rattle.opgen_design.specs.Run.{at_ports, initial_words, input_widths, is_out};
ghost use Rattle.opgen_design.specs.Sound.{IsSound, port_widths};
ghost use Rattle.opgen_runs.specs.Registers.{SameRegisters};
ghost use Rattle.opgen_runs.specs.Step.{IsStep};
ghost use Rattle.opgen_sim.specs.Engines.{IsEngineOf, registers_of};

use crate::walker::Walker;
use opgen_design::Design;
use opgen_machine::{Machine, is_flat};
use std::alloc::{AllocError, Global};

/// Fewer cycles than these are run by a walk over the drivers: making a list of steps, or vectors of 256 streams, takes longer than
/// walking the drivers so few times.
pub const FEW_CYCLES: u32 = 4;

/// What runs a design: a machine where its words and tables are small and more than a few cycles are to be run, and else a walk over
/// its drivers.
#[derive(Drop)]
pub enum Engine {
    Flat(Machine),
    Wide(Walker),
}

impl Engine {
    /// Before the first cycle of a sound design, of which so many cycles are to be run.
    pub fn new(
        alloc: Global,
        design: &Design,
        order: Vec<usize>,
        cycles: u32,
    ) -> Result<Engine, AllocError>
        requires sound { IsSound design.now }
        requires order { IsOrderOf design.now order.items }
        ensures engine { IfOk result (λ e. IsEngineOf design.now e) }
        ensures registers { IfOk result (λ e. SameRegisters design.now (registers_of design.now e) (initial_words design.now.signals)) }
    {
        if cycles >= FEW_CYCLES && is_flat(design) {
            Ok(Engine::Flat(Machine::new(alloc, design, &order)?))
        } else {
            Ok(Engine::Wide(Walker::new(alloc, design, order)?))
        }
    }

    /// Runs one cycle of the engine's design.
    pub fn step(&mut self, design: &Design, inputs: &[u128], outputs: &mut [u128])
        requires engine { IsEngineOf design.now self.old }
        requires inputs { FitWidths (input_widths design.now) inputs.now }
        requires outputs { length outputs.old ≡ length (at_ports is_out design.now.ports (port_widths design.now)) }
        ensures engine { IsEngineOf design.now self.new }
        ensures step { IsStep design.now (registers_of design.now self.old) inputs.now (registers_of design.now self.new) outputs.new }
    {
        match self {
            Engine::Flat(machine) => machine.step(inputs, outputs),
            Engine::Wide(walker) => walker.step(design, inputs, outputs),
        }
    }
}
