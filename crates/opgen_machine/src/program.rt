//! Translates a design to a program: the steps of one cycle, the moves of its registers, and the places of its outputs.
ghost use Rattle.std.specs.Prelude.{◌≡◌, ◌<◌, ◌^◌, IfOk};
ghost use Rattle.std.specs.List.{AllZip};
ghost use Rattle.opgen_design.specs.Order.{IsOrderOf};
ghost use Rattle.opgen_design.specs.Sound.{IsSound};
ghost use Rattle.opgen_machine.specs.Laid.{HasRoom, IsFlat};
ghost use Rattle.opgen_machine.specs.Layout.{first_spots, rest_of, spots_of};
ghost use Rattle.opgen_machine.specs.Machines.{IsProgramOf};

use crate::drivers::settle;
use crate::layout::{WordSpots, output_places, port_spots, signal_spots};
use crate::registers::{Move, moves};
use crate::step::Step;
use opgen_design::Design;
use std::alloc::{AllocError, Global};

/// The steps of a design's cycle, the moves at its end, and the places of the numbers of the output ports.
#[derive(Drop)]
pub struct Program {
    pub steps: Vec<Step>,
    pub moves: Vec<Move>,
    pub outputs: Vec<usize>,
}

// The program of a design over the spots of its words before a cycle.
fn compile_on(
    alloc: Global,
    design: &Design,
    order: &[usize],
    base: usize,
    tables: &[usize],
    spots: &mut WordSpots,
) -> Result<Program, AllocError>
    requires sound { IsSound design.now }
    requires order { IsOrderOf design.now order.now }
    requires flat { IsFlat design.now }
    requires base { base < 2 ^ 63 }
    requires behind { rest_of design.now < base }
    requires room { AllZip (HasRoom base) design.now.drivers tables.now }
    requires spots { spots_of spots.old ≡ first_spots design.now }
    ensures { IfOk result (λ p. IsProgramOf design.now tables.now base p) }
{
    let mut steps = Vec::new(alloc);
    let drivers = design.drivers.as_slice();
    settle(&mut steps, base, spots, drivers, tables, order)?;
    let moves = moves(alloc, &mut steps, base, spots, design.enable, drivers)?;
    let outputs = output_places(alloc, design.ports.as_slice(), &spots.ports)?;
    Ok(Program {
        steps,
        moves,
        outputs,
    })
}

/// Translates a design, whose words before a cycle stand first among `base` numbers: those of the signals, those of the inputs, and
/// at `rest` one for the outputs. Behind them stand the tables at their places.
pub(crate) fn compile(
    alloc: Global,
    design: &Design,
    order: &[usize],
    base: usize,
    rest: usize,
    tables: &[usize],
) -> Result<Program, AllocError>
    requires sound { IsSound design.now }
    requires order { IsOrderOf design.now order.now }
    requires flat { IsFlat design.now }
    requires base { base < 2 ^ 63 }
    requires rest { rest ≡ rest_of design.now }
    requires behind { rest < base }
    requires room { AllZip (HasRoom base) design.now.drivers tables.now }
    ensures { IfOk result (λ p. IsProgramOf design.now tables.now base p) }
{
    let signals = signal_spots(alloc, design.signals.as_slice())?;
    let ports = port_spots(alloc, design.ports.as_slice(), signals.len(), rest)?;
    let mut spots = WordSpots { signals, ports };
    compile_on(alloc, design, order, base, tables, &mut spots)
}
