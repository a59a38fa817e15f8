//! Tests of the limit on signals: a net with 65,536 signals is planned, and one with 65,537 is rejected.
ghost use Rattle.std.specs.Prelude.{◌≡◌, ◌∷◌, [], IfOk, codes};
ghost use Rattle.opgen_net.specs.Valid.{IsValid};

use crate::plans::{expect, part, planned};
use opgen_net::Net;
use opgen_num::{Memory, Word};
use opgen_pipe::{PlanFault, Planned};
use opgen_target::{LinearTarget, Target};
use std::alloc::{AllocError, Global};
use std::test::Fail;

// A net of an input, put out as it is, and a number of constants that nothing reads.
fn constants(alloc: Global, number: usize) -> Result<Net, Memory>
    ensures inputs { IfOk result (λ net. net.inputs ≡ (codes "x", 1) ∷ []) }
    ensures outputs { IfOk result (λ net. net.outputs ≡ (record { name = codes "y"; from = record { node = 0; high = 0; low = 0 } }) ∷ []) }
    ensures valid { IfOk result IsValid }
{
    let mut net = Net::new(alloc);
    net.input("x", 1)?;
    net.output("y", part(0, 0, 0))?;
    for _ in 0..number {
        net.constant(Word::new(1, 1))?;
    }
    Ok(net)
}

fn zeros(alloc: Global) -> Result<LinearTarget, AllocError> {
    let name = String::from_str(alloc, "zeros")?;
    Ok(LinearTarget::new(name, [(0, 0); 6]))
}

// The plan of that net, where no cell takes time.
fn planned_with(alloc: Global, number: usize) -> Result<Result<Planned, PlanFault>, Fail> {
    let net = constants(alloc, number)?;
    let mut target: Box<dyn Target> = Box::new(alloc, zeros(alloc)?)?;
    Ok(planned(alloc, &net, true, &mut target, 1))
}

#[test]
fn signals_65_536(rt: HostRuntime) -> Result<(), Fail> {
    let large = planned_with(rt.alloc(), 65_535)??;
    expect(&rt, &large, 0, 1, 65_536, [0; 6]);
    Ok(())
}

#[test]
fn signals_65_537_are_refused(rt: HostRuntime) -> Result<(), Fail> {
    let refused = planned_with(rt.alloc(), 65_536)?;
    assert!(rt; matches!(refused, Err(PlanFault::TooLarge)));
    Ok(())
}
