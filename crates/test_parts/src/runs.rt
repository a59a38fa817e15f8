//! Tests of a simulator and of lanes that are made from a copy of a design, which no command makes.
ghost use Rattle.std.specs.Prelude.{◌≡◌, ◌∷◌, [], IfOk, codes, length};
ghost use Rattle.opgen_design.specs.declared.design.Dir.TheVariants.{Out};

use opgen_design::{Design, Dir, Driver, Expr, Formula, Port, Signal};
use opgen_lanes::Lanes;
use opgen_list::{Items, Text};
use opgen_num::{Memory, Word};
use opgen_sim::Sim;
use std::alloc::{AllocError, Global};
use std::process::Abort;
use std::simd::prelude::*;
use std::test::Fail;

fn ports(alloc: Global) -> Result<Items<Port>, AllocError>
    ensures { IfOk result (λ ps. ps ≡ (record { name = codes "y"; dir = Out; width = 1 }) ∷ []) }
{
    let mut ports = Items::new(alloc);
    ports.push(Port {
        name: Text::from_str(alloc, "y")?,
        dir: Dir::Out,
        width: 1,
    })?;
    Ok(ports)
}

fn signals(alloc: Global) -> Result<Items<Signal>, AllocError>
    ensures { IfOk result (λ ss. length ss ≡ 1) }
{
    let mut signals = Items::new(alloc);
    signals.push(Signal {
        name: Text::from_str(alloc, "s0")?,
        width: 1,
        initial: Some(Word::new(1, 1)),
    })?;
    Ok(signals)
}

fn drivers(alloc: Global) -> Result<Items<Driver>, AllocError>
    ensures { IfOk result (λ ks. length ks ≡ 2) }
{
    let mut drivers = Items::new(alloc);
    drivers.push(Driver::Register {
        to: 0,
        expr: Formula::new(Expr::Not(Box::new(alloc, Expr::Name(0))?)),
    })?;
    drivers.push(Driver::Output {
        port: 0,
        expr: Formula::new(Expr::Name(0)),
    })?;
    Ok(drivers)
}

// A register that begins with 1 and is inverted in each cycle.
fn blinker(alloc: Global) -> Result<Design, AllocError>
    ensures ports { IfOk result (λ d. d.ports ≡ (record { name = codes "y"; dir = Out; width = 1 }) ∷ []) }
    ensures signals { IfOk result (λ d. length d.signals ≡ 1) }
    ensures drivers { IfOk result (λ d. length d.drivers ≡ 2) }
{
    Ok(Design {
        name: Text::from_str(alloc, "blinker")?,
        ports: ports(alloc)?,
        signals: signals(alloc)?,
        drivers: drivers(alloc)?,
        enable: None,
    })
}

fn expect_numbers(rt: &impl Abort, alloc: Global, design: &Design) -> Result<(), Memory>
    requires ports { design.now.ports ≡ (record { name = codes "y"; dir = Out; width = 1 }) ∷ [] }
    requires signals { length design.now.signals ≡ 1 }
    requires drivers { length design.now.drivers ≡ 2 }
{
    assert!(rt; design.sound(alloc).is_ok());
    let mut sim = Sim::new(alloc, design)?;
    let mut outputs = [0];
    sim.step(&[], &mut outputs);
    assert_eq!(rt; outputs[0], 1);
    sim.step(&[], &mut outputs);
    assert_eq!(rt; outputs[0], 0);
    Ok(())
}

fn expect_vectors(rt: &impl Abort, alloc: Global, design: &Design) -> Result<(), Memory>
    requires ports { design.now.ports ≡ (record { name = codes "y"; dir = Out; width = 1 }) ∷ [] }
    requires signals { length design.now.signals ≡ 1 }
    requires drivers { length design.now.drivers ≡ 2 }
{
    assert!(rt; design.sound(alloc).is_ok());
    let mut lanes = Lanes::new(alloc, design)?;
    let mut bits = [u64x4::splat(0)];
    lanes.step(&[], &mut bits);
    assert_eq!(rt; bits[0].to_array(), [u64::MAX; 4]);
    lanes.step(&[], &mut bits);
    assert_eq!(rt; bits[0].to_array(), [0; 4]);
    Ok(())
}

#[test]
fn a_simulator_of_a_copy(rt: HostRuntime) -> Result<(), Fail> {
    let design = blinker(rt.alloc())?;
    expect_numbers(&rt, rt.alloc(), &design)?;
    Ok(())
}

#[test]
fn lanes_of_a_copy(rt: HostRuntime) -> Result<(), Fail> {
    let design = blinker(rt.alloc())?;
    expect_vectors(&rt, rt.alloc(), &design)?;
    Ok(())
}
