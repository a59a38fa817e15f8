//! Tests of the text of a third of four bits in two stages: its design, its text again, and its run in every stream.
ghost use Rattle.std.specs.Prelude.{◌≡◌, IfOk, length};
ghost use Rattle.test_commands.specs.Third.{third_ports};

use crate::texts::THIRD;
use opgen_design::{Design, Dir, Port};
use opgen_lanes::Lanes;
use opgen_list::{Items, Text};
use opgen_num::Memory;
use opgen_read::read_design;
use opgen_write::text;
use std::alloc::{AllocError, Global};
use std::process::Abort;
use std::simd::prelude::*;
use std::test::Fail;

fn read(rt: &impl Abort, alloc: Global) -> Result<Design, Fail> {
    let bytes = THIRD.as_bytes();
    assert!(rt; bytes.len() < 2000);
    Ok(read_design(alloc, bytes)?)
}

#[test]
fn five_signals_and_one_initial_word(rt: HostRuntime) -> Result<(), Fail> {
    let design = read(&rt, rt.alloc())?;
    let names = ["s0", "s1", "s1_1", "s2", "s3"];
    assert_eq!(rt; design.signals.len(), names.len());
    for (signal, name) in design.signals.as_slice().iter().zip(names.iter()) {
        assert_eq!(rt; signal.name.as_str(), *name);
        assert_eq!(rt; signal.width, 4);
        assert!(rt; signal.initial.is_some() == (signal.name.as_str() == "s1_1"));
    }
    Ok(())
}

#[test]
fn the_same_text_again(rt: HostRuntime) -> Result<(), Fail> {
    let design = read(&rt, rt.alloc())?;
    let written = text(rt.alloc(), &design)?;
    assert!(rt; written.as_slice() == THIRD.as_bytes());
    Ok(())
}

fn port(alloc: Global, name: &str, dir: Dir, width: u32) -> Result<Port, AllocError>
    ensures { IfOk result (λ p. p ≡ record { name = name.now; dir = dir; width = width }) }
{
    let name = Text::from_str(alloc, name)?;
    Ok(Port { name, dir, width })
}

fn ports(alloc: Global) -> Result<Items<Port>, AllocError>
    ensures { IfOk result (λ ps. ps ≡ third_ports) }
{
    let mut ports = Items::new(alloc);
    ports.push(port(alloc, "x", Dir::In, 4)?)?;
    ports.push(port(alloc, "y", Dir::Out, 3)?)?;
    Ok(ports)
}

// A bit of a word in all streams.
fn bit(word: u32, value: u32) -> u64x4 {
    if word & value != 0 {
        u64x4::splat(u64::MAX)
    } else {
        u64x4::splat(0)
    }
}

// One cycle in every stream.
fn expect_cycle(rt: &impl Abort, lanes: &mut Lanes, input: u32, output: u32)
    requires ports { lanes.old.design.ports ≡ third_ports }
    ensures design { lanes.new.design ≡ lanes.old.design }
{
    let inputs = [bit(input, 1), bit(input, 2), bit(input, 4), bit(input, 8)];
    let mut outputs = [u64x4::splat(0); 3];
    lanes.step(&inputs, &mut outputs);
    assert_eq!(rt; outputs[0].to_array(), bit(output, 1).to_array());
    assert_eq!(rt; outputs[1].to_array(), bit(output, 2).to_array());
    assert_eq!(rt; outputs[2].to_array(), bit(output, 4).to_array());
}

fn expect_run(rt: &impl Abort, alloc: Global, design: &Design) -> Result<(), Memory>
    requires ports { design.now.ports ≡ third_ports }
    requires signals { length design.now.signals ≡ 5 }
    requires drivers { length design.now.drivers ≡ 6 }
{
    assert!(rt; design.sound(alloc).is_ok());
    let mut lanes = Lanes::new(alloc, design)?;
    expect_cycle(rt, &mut lanes, 1, 0);
    expect_cycle(rt, &mut lanes, 2, 1);
    expect_cycle(rt, &mut lanes, 4, 1);
    expect_cycle(rt, &mut lanes, 15, 2);
    expect_cycle(rt, &mut lanes, 0, 5);
    Ok(())
}

#[test]
fn its_outputs_in_every_stream(rt: HostRuntime) -> Result<(), Fail> {
    let alloc = rt.alloc();
    let read = read(&rt, alloc)?;
    let design = Design {
        name: read.name,
        ports: ports(alloc)?,
        signals: read.signals,
        drivers: read.drivers,
        enable: read.enable,
    };
    assert_eq!(rt; design.signals.len(), 5);
    assert_eq!(rt; design.drivers.len(), 6);
    expect_run(&rt, alloc, &design)?;
    Ok(())
}
