//! Tests of the shared bound: two passes in one thread, and two threads that publish at the same time.
ghost use Rattle.std.specs.Prelude.{◌≡◌, ◌≤◌};
ghost use Rattle.opgen_bound.specs.Passes.{view, IsPassOf};

use crate::{Bound, Pass};
use std::test::Fail;
use std::thread::{Threads, join};

// The contract of `look` also holds if it returns the last cost that its pass has seen, here 25, without a load. This test asks for the load.
#[test]
fn one_pass_sees_what_the_other_published(rt: HostRuntime) -> Result<(), Fail> {
    let (bound, mut old) = Bound::new(rt.alloc(), 25)?;
    let mut new = bound.split(&mut old);
    assert_eq!(rt; bound.publish(&mut new, 17), 25);
    assert_eq!(rt; bound.look(&mut old), 17);
    assert_eq!(rt; bound.publish(&mut old, 20), 17);
    bound.join(&mut old, new);
    assert_eq!(rt; bound.close(old), 17);
    Ok(())
}

// Two threads publish a cost each, and one pass comes back with the share of both.
fn publish_both<R: Threads + Sync>(
    rt: &R,
    bound: &Bound,
    mut left: Pass,
    low: u64,
    high: u64,
) -> Pass
    requires bound { IsPassOf bound.now left }
    requires share { 2 ≤ (view left).share }
    ensures bound { IsPassOf bound.now result }
    ensures share { (view result).share ≡ (view left).share }
    ensures low { (view result).published ≤ low }
    ensures high { (view result).published ≤ high }
{
    let right = bound.split(&mut left);
    let (mut left, right) = join(
        rt,
        move || -> Pass
            requires { IsPassOf bound.now left }
            ensures { IsPassOf bound.entry.now result × ((view result).share ≡ (view left).share) × ((view result).published ≤ low) }
        { publish_one(bound, left, low) },
        move || -> Pass
            requires { IsPassOf bound.now right }
            ensures { IsPassOf bound.entry.now result × ((view result).share ≡ (view right).share) × ((view result).published ≤ high) }
        { publish_one(bound, right, high) },
    );
    bound.join(&mut left, right);
    left
}

fn publish_one(bound: &Bound, mut pass: Pass, cost: u64) -> Pass
    requires { IsPassOf bound.now pass }
    ensures bound { IsPassOf bound.now result }
    ensures share { (view result).share ≡ (view pass).share }
    ensures cost { (view result).published ≤ cost }
{
    bound.publish(&mut pass, cost);
    pass
}

#[test]
fn two_threads_publish(rt: HostRuntime) -> Result<(), Fail> {
    let (bound, pass) = Bound::new(rt.alloc(), 25)?;
    let pass = publish_both(&rt, &bound, pass, 17, 20);
    assert_eq!(rt; bound.close(pass), 17);
    Ok(())
}
