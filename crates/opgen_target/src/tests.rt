//! Tests of both targets: their delays, changes of the delay lines, and what their ledgers count.
ghost use Rattle.std.specs.Prelude.{◌≡◌, ◌≤◌, vec_len};
ghost use Rattle.opgen_target.specs.Tables.{AreLines};

use crate::*;
use std::alloc::{AllocError, Global};
use std::process::Abort;
use std::test::Fail;

fn linear(alloc: Global, name: &str, lines: [(u32, u32); 6]) -> Result<LinearTarget, AllocError>
    requires { AreLines lines }
{
    let name = String::from_str(alloc, name)?;
    Ok(LinearTarget::new(name, lines))
}

fn listed(alloc: Global, name: &str, delays: Vec<u32>) -> Result<ListTarget, AllocError>
    requires { vec_len delays ≡ 768 }
{
    let name = String::from_str(alloc, name)?;
    Ok(ListTarget::new(name, delays))
}

fn expect_delays(rt: &impl Abort, target: &Box<dyn Target>, rows: &[(Class, u32, u32)]) {
    for (class, width, delay) in rows {
        assert!(rt; (1..=128).contains(width));
        let cell = Cell {
            class: *class,
            width: *width,
        };
        assert_eq!(rt; target.delay(cell), *delay, "{class:?} {width}");
    }
}

fn expect_ledger(rt: &impl Abort, target: &Box<dyn Target>, numbers: [u64; 6]) {
    for (place, class) in Class::ALL.iter().enumerate() {
        assert_eq!(rt; target.charged(*class), numbers[place], "{class:?}");
    }
}

fn charge(target: &mut Box<dyn Target>, class: Class, width: u32)
    requires { (1 ≤ width) × (width ≤ 128) }
{
    target.charge(Cell { class, width });
}

#[test]
fn plain_goes_by_lines(rt: HostRuntime) -> Result<(), Fail> {
    let mut target: Box<dyn Target> = Box::new(rt.alloc(), plain(rt.alloc())?)?;
    assert_eq!(rt; target.name(), "plain");
    expect_delays(
        &rt,
        &target,
        &[
            (Class::Wire, 128, 0),
            (Class::Logic, 5, 400),
            (Class::Add, 1, 530),
            (Class::Add, 128, 4340),
            (Class::Choice, 7, 450),
            (Class::Table, 4, 800),
            (Class::Table, 128, 7000),
            (Class::Register, 1, 100),
            (Class::Register, 64, 100),
        ],
    );
    assert!(rt; target.retune(Class::Add, 100, 10));
    expect_delays(
        &rt,
        &target,
        &[
            (Class::Logic, 5, 400),
            (Class::Add, 1, 110),
            (Class::Add, 128, 1380),
            (Class::Choice, 7, 450),
            (Class::Register, 1, 100),
        ],
    );
    Ok(())
}

#[test]
fn fixed_goes_by_its_list(rt: HostRuntime) -> Result<(), Fail> {
    let rows = [
        (Class::Wire, 1, 0),
        (Class::Wire, 128, 0),
        (Class::Logic, 1, 350),
        (Class::Logic, 128, 350),
        (Class::Add, 1, 500),
        (Class::Add, 8, 500),
        (Class::Add, 9, 600),
        (Class::Add, 128, 2000),
        (Class::Choice, 1, 400),
        (Class::Choice, 128, 400),
        (Class::Table, 1, 700),
        (Class::Table, 128, 700),
        (Class::Register, 1, 80),
        (Class::Register, 128, 80),
    ];
    let mut target: Box<dyn Target> = Box::new(rt.alloc(), fixed(rt.alloc())?)?;
    assert_eq!(rt; target.name(), "fixed");
    expect_delays(&rt, &target, &rows);
    assert!(rt; !target.retune(Class::Add, 100, 10));
    expect_delays(&rt, &target, &rows);
    Ok(())
}

fn expect_charges(rt: &impl Abort, target: &mut Box<dyn Target>) {
    expect_ledger(rt, target, [0; 6]);
    charge(target, Class::Table, 4);
    charge(target, Class::Add, 4);
    charge(target, Class::Register, 1);
    charge(target, Class::Table, 6);
    charge(target, Class::Wire, 128);
    expect_ledger(rt, target, [128, 0, 4, 0, 10, 1]);
    target.clear();
    expect_ledger(rt, target, [0; 6]);
    charge(target, Class::Logic, 1);
    expect_ledger(rt, target, [0, 1, 0, 0, 0, 0]);
}

#[test]
fn cells_are_charged(rt: HostRuntime) -> Result<(), Fail> {
    let mut target: Box<dyn Target> = Box::new(rt.alloc(), plain(rt.alloc())?)?;
    expect_charges(&rt, &mut target);
    let mut target: Box<dyn Target> = Box::new(rt.alloc(), fixed(rt.alloc())?)?;
    expect_charges(&rt, &mut target);
    Ok(())
}

fn expect_ends(rt: &impl Abort, target: &Box<dyn Target>, narrow: u32, wide: u32) {
    for class in &Class::ALL {
        expect_delays(rt, target, &[(*class, 1, narrow), (*class, 128, wide)]);
    }
}

#[test]
fn least_and_greatest_delays(rt: HostRuntime) -> Result<(), Fail> {
    let zeros = linear(rt.alloc(), "zeros", [(0, 0); 6])?;
    let zeros: Box<dyn Target> = Box::new(rt.alloc(), zeros)?;
    expect_ends(&rt, &zeros, 0, 0);

    let zeros = listed(rt.alloc(), "zeros", vec![in rt.alloc(); 0; 768]?)?;
    let zeros: Box<dyn Target> = Box::new(rt.alloc(), zeros)?;
    expect_ends(&rt, &zeros, 0, 0);

    let steep = linear(rt.alloc(), "steep", [(1_000_000, 10_000); 6])?;
    let steep: Box<dyn Target> = Box::new(rt.alloc(), steep)?;
    expect_ends(&rt, &steep, 1_010_000, 2_280_000);

    let slow = listed(rt.alloc(), "slow", vec![in rt.alloc(); u32::MAX; 768]?)?;
    let slow: Box<dyn Target> = Box::new(rt.alloc(), slow)?;
    expect_ends(&rt, &slow, 4_294_967_295, 4_294_967_295);
    Ok(())
}
