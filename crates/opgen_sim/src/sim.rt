//! The simulator: runs a sound design cycle by cycle, numbers in and numbers out.
ghost use Rattle.std.specs.Prelude.{◌≡◌, IfOk, length};
ghost use Rattle.opgen_num.specs.Words.{FitWidths};
ghost use Rattle.opgen_design.specs.Run.{at_ports, input_widths, is_out};
ghost use Rattle.opgen_design.specs.Sound.{HasNumbers, IsSound, port_widths};
ghost use Rattle.opgen_runs.specs.Step.{IsStep};
ghost use Rattle.opgen_sim.specs.Sims.{IsNew};

use crate::engine::Engine;
use opgen_design::Design;
use opgen_num::Memory;
use opgen_runs::evaluation_order;
use std::alloc::Global;
use std::marker::Model;

/// A design that is run cycle by cycle.
#[derive(Drop)]
pub struct Sim {
    design: Design,
    engine: Engine,
}

impl Model for Sim {
    ghost use Rattle.std.specs.Coded.{codes};
    ghost use Rattle.opgen_design.specs.TreeCode.{coded_tree};
    ghost use Rattle.opgen_sim.specs.Engines.{IsEngineOf, registers_of};
    ghost use Rattle.opgen_sim.specs.Sims.{Simulator};

    ghost Value = { Simulator };

    ghost coded = { Prim.hlevel (codes, coded_tree) };

    ghost view = { λ s. record { design = s.design; registers = registers_of s.design s.engine } };

    ghost invariant = { λ s. IsEngineOf s.design s.engine };
}

impl Sim {
    /// A simulator before the first cycle of a sound design, which it keeps, with all the room that its steps use.
    ///
    /// `cycles` says how many cycles are to be run, so that it runs them in the way that is faster. Whatever it says, any number of
    /// cycles may be run. A design of 2^32 or more ports, signals and drivers together is answered by `Memory`.
    pub fn from_design(alloc: Global, design: Design, cycles: u32) -> Result<Sim, Memory>
        requires { IsSound design }
        ensures new { IfOk result (λ s. IsNew design s) }
        ensures numbers { IfOk result (λ s. HasNumbers design) }
    {
        let order = evaluation_order(alloc, &design)?;
        let engine = Engine::new(alloc, &design, order, cycles)?;
        Ok(Sim { design, engine })
    }

    /// The same of a copy of a design, for many cycles.
    pub fn new(alloc: Global, design: &Design) -> Result<Sim, Memory>
        requires { IsSound design.now }
        ensures new { IfOk result (λ s. IsNew design.now s) }
        ensures numbers { IfOk result (λ s. HasNumbers design.now) }
    {
        Sim::from_design(alloc, design.copy(alloc)?, u32::MAX)
    }

    /// Runs one cycle: a number for each input port, below 2 to its width, gives a number for each output port. Takes no memory.
    pub fn step(&mut self, inputs: &[u128], outputs: &mut [u128])
        requires inputs { FitWidths (input_widths self.old.design) inputs.now }
        requires outputs { length outputs.old ≡ length (at_ports is_out self.old.design.ports (port_widths self.old.design)) }
        ensures design { self.new.design ≡ self.old.design }
        ensures step { IsStep self.old.design self.old.registers inputs.now self.new.registers outputs.new }
    {
        self.engine.step(&self.design, inputs, outputs);
    }
}
