//! Tests of sums that are cut to the period: ten bits on the target `plain`, whose sums of n bits take 500 + 30 n and its setup 100.
ghost use Rattle.std.specs.Prelude.{◌≡◌, ◌∷◌, [], IfOk, codes, map};
ghost use Rattle.opgen_net.specs.Valid.{IsValid};

use crate::plans::{expect, part, plain, sum_of};
use opgen_net::{Class, Net};
use opgen_num::Memory;
use opgen_pipe::{PlanFault, Planned};
use opgen_target::Target;
use opgen_timing::cut_and_plan;
use std::alloc::Global;
use std::test::Fail;

// The sum of an input of ten bits and itself.
fn twice(alloc: Global) -> Result<Net, Memory>
    ensures inputs { IfOk result (λ net. net.inputs ≡ (codes "x", 10) ∷ []) }
    ensures outputs { IfOk result (λ net. net.outputs ≡ (record { name = codes "y"; from = record { node = 1; high = 9; low = 0 } }) ∷ []) }
    ensures valid { IfOk result IsValid }
{
    let mut net = Net::new(alloc);
    net.input("x", 10)?;
    net.cells(Class::Add, 10, sum_of(alloc, 0, 0)?)?;
    net.output("y", part(1, 9, 0))?;
    Ok(net)
}

// What that net is planned as.
fn planned(alloc: Global, period: u32) -> Result<Result<Planned, PlanFault>, Fail> {
    let net = twice(alloc)?;
    let mut target: Box<dyn Target> = Box::new(alloc, plain(alloc)?)?;
    Ok(cut_and_plan(alloc, &net, "made", false, &mut target, period))
}

#[test]
fn a_sum_that_fits(rt: HostRuntime) -> Result<(), Fail> {
    let plan = planned(rt.alloc(), 900)??;
    expect(&rt, &plan, 0, 0, 2, [0, 0, 10, 0, 0, 0]);
    Ok(())
}

#[test]
fn a_sum_in_pieces_of_five_bits(rt: HostRuntime) -> Result<(), Fail> {
    let plan = planned(rt.alloc(), 750)??;
    expect(&rt, &plan, 2, 0, 10, [10, 0, 14, 0, 0, 35]);
    Ok(())
}

#[test]
fn a_sum_in_pieces_of_four_bits(rt: HostRuntime) -> Result<(), Fail> {
    let plan = planned(rt.alloc(), 720)??;
    assert_eq!(rt; plan.latency, 3);
    let refused = planned(rt.alloc(), 719)?;
    assert!(rt; matches!(refused, Err(PlanFault::PeriodTooShort { need: 720 })));
    Ok(())
}
