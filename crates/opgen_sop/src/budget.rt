//! How many guard bits a sum of products has: the fewest for which a unit for each table and each row that loses some is less than one
//! unit of the output.
ghost use Rattle.std.specs.Prelude.{◌≡◌, ◌+◌, ◌*◌, ◌≤◌, ◌<◌, ◌^◌, length, All, pos, ◌<ℤ◌};
ghost use Rattle.opgen_num.specs.declared.format.TheConstants.{MAX_WIDTH};
ghost use Rattle.opgen_terms.specs.Sop.{IsSop, IsAcceptedSop, sop_format, offset_term};
ghost use Rattle.opgen_sop.specs.Sizes.{lost, tables_of, floors_of, rows_cut, tables_in, floors_in, tables, floors, rounding, IsGuard};
ghost use Rattle.opgen_sop.specs.Small.{IsSmallShift, IsSmallScaled, IsSmallTimes, IsSmallGuard, HasSmallTerms};

use crate::fractions::{
    format_of, is_rounded, offset_fraction, placing, products, scaled_fraction, turned_fraction,
};
use opgen_num::Ratio;
use opgen_operator::{Scaled, Sop, Times};
use opgen_partial::Products;

/// What is rounded to the nearest unit, and what is rounded down, over all terms.
#[derive(Clone, Copy, Debug, PartialEq, Eq)]
pub(crate) struct Loss {
    pub(crate) tables: u32,
    pub(crate) floors: u32,
}

// One unit where a fraction is rounded down.
fn lost(fraction: Ratio) -> u32
    requires { pos 0 <ℤ fraction.den }
    ensures value { result ≡ lost fraction }
    ensures few { result ≤ 1 }
{
    u32::from(is_rounded(fraction))
}

// The tables of a constant that are rounded.
fn tables_of(sop: &Sop, guard: u32, term: Scaled) -> u32
    requires sop { IsSop sop.now }
    requires guard { guard ≤ 11 }
    requires term { IsSmallScaled sop.now term }
    ensures value { result ≡ tables_of sop.now guard term }
    ensures few { result ≤ 8 }
{
    if is_rounded(scaled_fraction(sop, guard, term)) {
        return format_of(sop, term.input).width.div_ceil(6);
    }
    0
}

// The rows of bits that lose some.
fn rows_cut(products: &Products, square: bool) -> u32
    requires { products.now.left_out ≤ 48 }
    ensures value { result ≡ rows_cut products.now square }
    ensures few { result ≤ 48 }
{
    if square {
        return products.a.width.min(products.left_out.div_ceil(2));
    }
    products
        .a
        .width
        .min(products.b.width)
        .min(products.left_out)
}

// What a product loses.
fn floors_of(sop: &Sop, guard: u32, term: Times) -> u32
    requires sop { IsSop sop.now }
    requires guard { guard ≤ 11 }
    requires term { IsSmallTimes sop.now term }
    ensures value { result ≡ floors_of sop.now guard term }
    ensures few { result ≤ 49 }
{
    let cut = rows_cut(&products(sop, guard, term), term.a == term.b);
    cut + lost(turned_fraction(sop, guard, term))
}

// The tables that are rounded.
fn tables(sop: &Sop, guard: u32) -> u32
    requires sop { IsSop sop.now }
    requires guard { guard ≤ 11 }
    requires terms { HasSmallTerms sop.now }
    ensures value { result ≡ tables sop.now guard }
    ensures few { result ≤ 512 }
{
    let mut count = 0;
    'terms: for term in sop.scaled.as_slice() {
        count += tables_of(sop, guard, *term);
    }
    count
}

// What the products lose.
fn products_floors(sop: &Sop, guard: u32) -> u32
    requires sop { IsSop sop.now }
    requires guard { guard ≤ 11 }
    requires terms { HasSmallTerms sop.now }
    ensures value { result ≡ floors_in sop.now guard sop.now.products }
    ensures few { result ≤ 784 }
{
    let mut count = 0;
    'terms: for term in sop.products.as_slice() {
        count += floors_of(sop, guard, *term);
    }
    count
}

/// What is lost in all terms together.
pub(crate) fn losses(sop: &Sop, guard: u32) -> Loss
    requires sop { IsSop sop.now }
    requires guard { guard ≤ 11 }
    requires terms { HasSmallTerms sop.now }
    ensures tables { result.tables ≡ tables sop.now guard }
    ensures floors { result.floors ≡ floors sop.now guard }
    ensures few_tables { result.tables ≤ 512 }
    ensures few_floors { result.floors ≤ 785 }
{
    Loss {
        tables: tables(sop, guard),
        floors: products_floors(sop, guard) + lost(offset_fraction(sop, guard)),
    }
}

/// The fewest guard bits for which a unit for all that is lost, each by itself, is less than one unit of the output.
pub(crate) fn guard_bits(sop: &Sop) -> u32
    requires sop { IsSop sop.now }
    requires terms { HasSmallTerms sop.now }
    ensures least { IsGuard sop.now result }
    ensures few { result ≤ 11 }
{
    let mut guard = 0;
    'bits: loop {
        let lost = losses(sop, guard);
        if lost.tables + lost.floors < 1 << guard {
            return guard;
        }
        guard += 1;
    }
}

/// What is added before the guard bits are dropped.
pub(crate) fn rounding(sop: &Sop, guard: u32) -> u32
    requires sop { IsSop sop.now }
    requires guard { guard ≤ 11 }
    requires terms { HasSmallTerms sop.now }
    ensures { result ≡ rounding sop.now guard }
{
    let lost = losses(sop, guard);
    let half = (1 << guard) / 2;
    half.max(lost.floors + lost.tables.div_ceil(2))
}
