//! Tests of nets of thousands of adders: long chains, and nodes with thousands of readers.
ghost use Rattle.std.specs.Prelude.{◌≡◌, ◌<◌, ◌≤◌, ◌∷◌, [], IfOk, codes, length, map};
ghost use Rattle.opgen_net.specs.Valid.{IsValid};

use crate::plans::{add, expect, part, plain, planned, planned_plain};
use opgen_net::Net;
use opgen_num::Memory;
use opgen_pipe::PlanFault;
use opgen_target::Target;
use std::alloc::Global;
use std::process::Abort;
use std::test::Fail;

// Appends an adder of two nodes, which are seen to have four bits.
fn adder(
    rt: &impl Abort,
    alloc: Global,
    net: &mut Net,
    first: usize,
    second: usize,
) -> Result<usize, Memory>
    requires net { IsValid net.old }
    requires first { first < length net.old.nodes }
    requires second { second < length net.old.nodes }
    ensures valid { IsValid net.new }
    ensures inputs { IfOk result (λ n. net.new.inputs ≡ net.old.inputs) }
    ensures outputs { IfOk result (λ n. net.new.outputs ≡ net.old.outputs) }
    ensures there { IfOk result (λ n. n < length net.new.nodes) }
    ensures longer { IfOk result (λ n. length net.old.nodes ≤ length net.new.nodes) }
{
    assert_eq!(rt; net.width_of(first), 4);
    assert_eq!(rt; net.width_of(second), 4);
    add(alloc, net, first, second)
}

// Puts out a node, which is seen to have four bits.
fn put_out(rt: &impl Abort, net: &mut Net, node: usize) -> Result<(), Memory>
    requires net { IsValid net.old }
    requires node { node < length net.old.nodes }
    requires outputs { net.old.outputs ≡ [] }
    ensures valid { IsValid net.new }
    ensures inputs { IfOk result (λ n. net.new.inputs ≡ net.old.inputs) }
    ensures outputs { IfOk result (λ n. map (λ o. o.name) net.new.outputs ≡ codes "y" ∷ []) }
{
    assert_eq!(rt; net.width_of(node), 4);
    net.output("y", part(node, 3, 0))
}

// Adders of which each doubles the node before it.
fn chain(rt: &impl Abort, alloc: Global, adders: usize) -> Result<Net, Memory>
    ensures inputs { IfOk result (λ net. net.inputs ≡ (codes "x", 4) ∷ []) }
    ensures outputs { IfOk result (λ net. map (λ o. o.name) net.outputs ≡ codes "y" ∷ []) }
    ensures valid { IfOk result IsValid }
{
    let mut net = Net::new(alloc);
    let mut last = net.input("x", 4)?;
    for _ in 0..adders {
        last = adder(rt, alloc, &mut net, last, last)?;
    }
    put_out(rt, &mut net, last)?;
    Ok(net)
}

// Appends a thousand adders of a node and x.
fn thousand(rt: &impl Abort, alloc: Global, net: &mut Net, node: usize) -> Result<(), Memory>
    requires net { IsValid net.old }
    requires node { node < length net.old.nodes }
    ensures valid { IfOk result (λ u. IsValid net.new) }
    ensures inputs { IfOk result (λ u. net.new.inputs ≡ net.old.inputs) }
    ensures outputs { IfOk result (λ u. net.new.outputs ≡ net.old.outputs) }
    ensures longer { IfOk result (λ u. length net.old.nodes ≤ length net.new.nodes) }
{
    for _ in 0..1_000u32 {
        adder(rt, alloc, net, node, 0)?;
    }
    Ok(())
}

// A chain of ten adders, and behind each a thousand that read it and x: those stand one cycle after it.
fn read_by_thousands(rt: &impl Abort, alloc: Global) -> Result<Net, Memory>
    ensures inputs { IfOk result (λ net. net.inputs ≡ (codes "x", 4) ∷ []) }
    ensures outputs { IfOk result (λ net. map (λ o. o.name) net.outputs ≡ codes "y" ∷ []) }
    ensures valid { IfOk result IsValid }
{
    let mut net = Net::new(alloc);
    let mut last = net.input("x", 4)?;
    for _ in 0..10u32 {
        last = adder(rt, alloc, &mut net, last, last)?;
        thousand(rt, alloc, &mut net, last)?;
    }
    let last_reader = net.nodes.len() - 1;
    put_out(rt, &mut net, last_reader)?;
    Ok(net)
}

#[test]
fn an_adder_a_cycle(rt: HostRuntime) -> Result<(), Fail> {
    let net = chain(&rt, rt.alloc(), 32_767)?;
    let plan = planned_plain(rt.alloc(), &net, false, 720)?;
    let cells = [0, 0, 131_068, 0, 0, 131_064];
    expect(&rt, &plan, 32_766, 0, 65_534, cells);
    Ok(())
}

#[test]
fn an_adder_too_many(rt: HostRuntime) -> Result<(), Fail> {
    let net = chain(&rt, rt.alloc(), 32_769)?;
    let mut target: Box<dyn Target> = Box::new(rt.alloc(), plain(rt.alloc())?)?;
    let refused = planned(rt.alloc(), &net, false, &mut target, 720);
    assert!(rt; matches!(refused, Err(PlanFault::TooLarge)));
    Ok(())
}

#[test]
fn ten_thousand_readers(rt: HostRuntime) -> Result<(), Fail> {
    let net = read_by_thousands(&rt, rt.alloc())?;
    let plan = planned_plain(rt.alloc(), &net, false, 720)?;
    expect(&rt, &plan, 10, 0, 10_031, [0, 0, 40_040, 0, 0, 80]);
    Ok(())
}
