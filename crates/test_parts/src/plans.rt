//! Plans nets of one input `x` and one output `y`, and builds adders and slices, for the tests of this crate.
ghost use Rattle.std.specs.Prelude.{◌≡◌, ◌∷◌, [], IfOk, OnOk, codes, map, length, slice_index};
ghost use Rattle.opgen_design.specs.Plain.{plain as plain_of};
ghost use Rattle.opgen_net.specs.Valid.{IsValid, widths};
ghost use Rattle.opgen_net.specs.Placed.{with_last};
ghost use Rattle.opgen_pipe.specs.Pipelined.{ports_of};
ghost use Rattle.test_parts.specs.Sums as sums;

use opgen_design::{Expr, Op, Slice};
use opgen_net::{Class, Net, Node};
use opgen_num::Memory;
use opgen_pipe::{Placing, PlanFault, Planned, Timing, plan};
use opgen_target::Target;
pub use opgen_target::plain;
use std::alloc::{AllocError, Global};
use std::process::Abort;
use std::test::Fail;

// What a net of one output is planned as.
pub fn planned(
    alloc: Global,
    net: &Net,
    enable: bool,
    target: &mut Box<dyn Target>,
    period: u32,
) -> Result<Planned, PlanFault>
    requires valid { IsValid net.now }
    requires inputs { map (λ i. i.0) net.now.inputs ≡ codes "x" ∷ [] }
    requires outputs { map (λ o. o.name) net.now.outputs ≡ codes "y" ∷ [] }
    ensures ports { IfOk result (λ p. p.design.ports ≡ ports_of enable net.now) }
{
    let timing = Timing {
        period,
        placing: Placing::Earliest,
    };
    plan(alloc, net, "made", enable, target, timing)
}

pub fn planned_plain(alloc: Global, net: &Net, enable: bool, period: u32) -> Result<Planned, Fail>
    requires valid { IsValid net.now }
    requires inputs { map (λ i. i.0) net.now.inputs ≡ codes "x" ∷ [] }
    requires outputs { map (λ o. o.name) net.now.outputs ≡ codes "y" ∷ [] }
    ensures ports { IfOk result (λ p. p.design.ports ≡ ports_of enable net.now) }
{
    let mut target: Box<dyn Target> = Box::new(alloc, plain(alloc)?)?;
    Ok(planned(alloc, net, enable, &mut target, period)?)
}

pub fn expect(
    rt: &impl Abort,
    plan: &Planned,
    latency: u32,
    slack: u64,
    signals: usize,
    cells: [u64; 6],
) {
    assert_eq!(rt; plan.latency, latency);
    assert_eq!(rt; plan.slack, slack);
    assert_eq!(rt; plan.design.signals.len(), signals);
    assert_eq!(rt; plan.cells, cells);
}

pub fn part(node: usize, high: u32, low: u32) -> Slice
    ensures { result ≡ record { node = node; high = high; low = low } }
{
    Slice { node, high, low }
}

// The sum of two nodes.
pub fn sum_of(alloc: Global, first: usize, second: usize) -> Result<Expr, AllocError>
    ensures { IfOk result (λ e. plain_of e ≡ sums.sum_of first second) }
{
    let mut operands = Vec::new(alloc);
    operands.push(Expr::Name(first))?;
    operands.push(Expr::Name(second))?;
    Ok(Expr::Chain(Op::Plus, operands))
}

// Appends an adder of two nodes of four bits.
pub fn add(alloc: Global, net: &mut Net, first: usize, second: usize) -> Result<usize, Memory>
    requires net { IsValid net.old }
    requires first { slice_index (widths net.old.nodes) first ≡ 4 }
    requires second { slice_index (widths net.old.nodes) second ≡ 4 }
    ensures ok { OnOk result (net.new ≡ with_last net.old (Node.Cells Class.Add 4 (sums.sum_of first second))) }
    ensures place { IfOk result (λ n. n ≡ length net.old.nodes) }
    ensures valid { IsValid net.new }
{
    net.cells(Class::Add, 4, sum_of(alloc, first, second)?)
}
