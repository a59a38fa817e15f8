//! Runs a design cycle by cycle as one list of steps over a memory.
ghost use Rattle.std.specs.Prelude.{◌≡◌, ◌+◌, ◌<◌, ◌≤◌, ◌^◌, ◌++◌, All, IfOk, OnOk, drop, length, map, replicate, slice_index, take};
ghost use Rattle.opgen_design.specs.declared.design.Design.{Design};
ghost use Rattle.opgen_design.specs.Order.{IsOrderOf};
ghost use Rattle.opgen_design.specs.Run.{initial_words};
ghost use Rattle.opgen_design.specs.Sound.{IsSound};
ghost use Rattle.opgen_runs.specs.Registers.{SameRegisters};
ghost use Rattle.opgen_machine.specs.Laid.{IsFlat};
ghost use Rattle.opgen_machine.specs.Layout.{start_of};
ghost use Rattle.opgen_machine.specs.Machines.{CanRun, CanStep, HasStepped, IsMachineOf, IsSameProgram, after, registers, run_on, with_inputs};

use crate::layout::{count_inputs, start_numbers};
use crate::program::{Program, compile};
use crate::registers::move_all;
use crate::running::run;
use crate::tables::lay_all;
use opgen_design::Design;
use std::alloc::{AllocError, Global};

/// A design as steps over one memory, with the numbers before its next cycle.
///
/// The numbers of the signals stand first, those of the inputs from `inputs` on, and behind them, below `base`, the tables; each
/// step leaves its number at the next place from `base` on.
#[derive(Drop)]
pub struct Machine {
    pub memory: Vec<u64>,
    pub base: usize,
    pub inputs: usize,
    pub program: Program,
}

fn push_zeros(memory: &mut Vec<u64>, count: usize) -> Result<(), AllocError>
    ensures { OnOk result (memory.new.items ≡ memory.old.items ++ replicate count 0) }
{
    for pushed in 0..count {
        memory.push(0)?;
    }
    Ok(())
}

// The numbers before the first cycle: those of the initial words, and zeros at the ports.
fn start(alloc: Global, design: &Design) -> Result<Vec<u64>, AllocError>
    requires sound { IsSound design.now }
    requires flat { IsFlat design.now }
    ensures { IfOk result (λ v. v.items ≡ start_of design.now) }
{
    let mut memory = start_numbers(alloc, design.signals.as_slice())?;
    push_zeros(&mut memory, count_inputs(design.ports.as_slice()) + 1)?;
    Ok(memory)
}

// Puts numbers from a place on.
fn take_inputs(memory: &mut [u64], at: usize, inputs: &[u128])
    requires room { at + length inputs.now ≤ length memory.old }
    requires numbers { All (λ n. n < 2 ^ 64) inputs.now }
    ensures { memory.new ≡ take at memory.old ++ inputs.now ++ drop (at + length inputs.now) memory.old }
{
    for (i, number) in inputs.iter().enumerate() {
        memory[at + i] = *number as u64;
    }
}

// Gives the numbers at places.
fn give_outputs(memory: &[u64], places: &[usize], outputs: &mut [u128])
    requires there { All (λ p. p < length memory.now) places.now }
    requires room { length outputs.old ≡ length places.now }
    ensures { outputs.new ≡ map (λ p. slice_index memory.now p) places.now }
{
    for (i, place) in places.iter().enumerate() {
        outputs[i] = memory[*place] as u128;
    }
}

impl Machine {
    /// The machine of a sound design before its first cycle, with all the room that its steps use.
    ///
    /// `order` is an order of evaluation, as [`Design::order`] finds it.
    pub fn new(alloc: Global, design: &Design, order: &[usize]) -> Result<Machine, AllocError>
        requires sound { IsSound design.now }
        requires order { IsOrderOf design.now order.now }
        requires flat { IsFlat design.now }
        ensures machine { IfOk result (λ c. IsMachineOf design.now c) }
        ensures registers { IfOk result (λ c. SameRegisters design.now (registers design.now c.memory.items) (initial_words design.now.signals)) }
    {
        let mut memory = start(alloc, design)?;
        let rest = memory.len() - 1;
        let tables = lay_all(alloc, &mut memory, design.drivers.as_slice())?;
        let base = memory.len();
        let program = compile(alloc, design, order, base, rest, &tables)?;
        push_zeros(&mut memory, program.steps.len())?;
        Ok(Machine {
            memory,
            base,
            inputs: design.signals.len(),
            program,
        })
    }

    // Runs the steps over the numbers with these at the input ports, and then the moves.
    fn turn(&mut self, inputs: &[u128], outputs: &mut [u128])
        requires ready { CanRun self.old }
        requires inputs { self.old.inputs + length inputs.now ≤ self.old.base }
        requires numbers { All (λ n. n < 2 ^ 64) inputs.now }
        requires outputs { length outputs.old ≡ length self.old.program.outputs.items }
        ensures same { IsSameProgram self.old self.new }
        ensures memory { self.new.memory.items ≡ after self.old.program (with_inputs self.old inputs.now) }
        ensures outputs { let numbers = run_on self.old.program (with_inputs self.old inputs.now) in
            outputs.new ≡ map (λ p. slice_index numbers p) self.old.program.outputs.items }
    {
        take_inputs(&mut self.memory, self.inputs, inputs);
        run(&self.program.steps, self.base, &mut self.memory);
        give_outputs(&self.memory, &self.program.outputs, outputs);
        move_all(&self.program.moves, &mut self.memory);
    }

    /// Runs one cycle of the machine's design: a number for each input port, below 2 to its width, gives a number for each output
    /// port. Takes no memory.
    pub fn step(&mut self, inputs: &[u128], outputs: &mut [u128])
        requires { (d : Design) × CanStep d self.old inputs.now (length outputs.old) }
        ensures { (d : Design) → CanStep d self.old inputs.now (length outputs.old) → HasStepped d self.old inputs.now self.new outputs.new }
    {
        self.turn(inputs, outputs);
    }
}
