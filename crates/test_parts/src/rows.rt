//! Tests of rows of words that are put into parallel streams and taken out of them.
ghost use Rattle.std.specs.Prelude.{◌≡◌, ◌≤◌, [], IfOk};

use opgen_vec::{Vectors, pack, unpack};
use std::alloc::{AllocError, Global};
use std::process::Abort;
use std::simd::u64x4;
use std::test::Fail;

fn column(alloc: Global, cells: &[u128]) -> Result<Vectors, AllocError>
    ensures columns { IfOk result (λ v. v.columns ≡ 1) }
    ensures cells { IfOk result (λ v. v.cells.items ≡ cells.now) }
{
    Ok(Vectors {
        columns: 1,
        cells: Vec::from_slice(alloc, cells)?,
    })
}

// 257 rows, each of four bits that count down.
fn falling(alloc: Global) -> Result<Vectors, AllocError>
    ensures columns { IfOk result (λ v. v.columns ≡ 1) }
{
    let cells = (0..257u32).map(|row| 15 - row as u128 % 16).collect(alloc)?;
    Ok(Vectors { columns: 1, cells })
}

/// The bits of each place in the first 256 rows, from the lowest place up.
static FALLING: [u64; 4] = [
    0x5555_5555_5555_5555,
    0x3333_3333_3333_3333,
    0x0f0f_0f0f_0f0f_0f0f,
    0x00ff_00ff_00ff_00ff,
];

#[test]
fn packs_rows(rt: HostRuntime) -> Result<(), Fail> {
    let rows = falling(rt.alloc())?;
    let mut lanes = [u64x4::splat(u64::MAX); 4];
    pack(&rows, 0, &[4], &mut lanes);
    for (lane, bits) in lanes.iter().zip(FALLING.iter()) {
        assert_eq!(rt; lane.to_array(), [*bits; 4]);
    }
    Ok(())
}

#[test]
fn packs_a_row_and_zeros(rt: HostRuntime) -> Result<(), Fail> {
    let rows = falling(rt.alloc())?;
    assert_eq!(rt; rows.row_count(), 257);
    let mut lanes = [u64x4::splat(u64::MAX); 4];
    pack(&rows, 256, &[4], &mut lanes);
    for lane in lanes.iter() {
        assert_eq!(rt; lane.to_array(), [1, 0, 0, 0]);
    }
    Ok(())
}

fn unpacks(rt: &impl Abort, alloc: Global, lanes: &[u64x4; 4], count: u32) -> Result<(), Fail>
    requires { count ≤ 256 }
{
    let mut rows = column(alloc, &[7])?;
    unpack(lanes, count, &[4], &mut rows)?;
    assert_eq!(rt; rows.cells.first(), Some(&7));
    assert_eq!(rt; rows.row_count(), 1 + count as usize);
    for (row, cell) in rows.cells.iter().skip(1).enumerate() {
        assert_eq!(rt; *cell, 15 - row as u128 % 16);
    }
    Ok(())
}

#[test]
fn unpacks_after_rows(rt: HostRuntime) -> Result<(), Fail> {
    let rows = falling(rt.alloc())?;
    let mut lanes = [u64x4::splat(0); 4];
    pack(&rows, 0, &[4], &mut lanes);
    unpacks(&rt, rt.alloc(), &lanes, 0)?;
    unpacks(&rt, rt.alloc(), &lanes, 1)?;
    unpacks(&rt, rt.alloc(), &lanes, 255)?;
    unpacks(&rt, rt.alloc(), &lanes, 256)
}
