//! Adds the tables of constants times inputs to the bit heap of a sum of products.
ghost use Rattle.std.specs.Prelude.{◌≡◌, [], OnOk};
ghost use Rattle.opgen_terms.specs.Sop.{IsSop};
ghost use Rattle.opgen_sop.specs.Recipe.{is_zero, with_scaled, with_all_scaled};
ghost use Rattle.opgen_sop.specs.Small.{IsSmallScaled, IsSmallGuard, HasSmallTerms};
ghost use Rattle.opgen_sop.specs.Summed.{Stands, HasScaled, AreSummed};

use crate::fractions::{format_of, scaled_fraction};
use opgen_kcm::rows_of;
use opgen_num::Memory;
use opgen_operator::{Scaled, Sop};
use opgen_partial::Work;
use std::alloc::Global;

fn is_zero(coefficient: i64) -> bool
    ensures { result ≡ is_zero coefficient }
{
    coefficient.unsigned_abs() == 0
}

// The tables of a constant on its input. The constant 0 has none.
fn add_scaled(
    alloc: Global,
    sop: &Sop,
    guard: u32,
    term: Scaled,
    work: &mut Work,
) -> Result<(), Memory>
    requires sop { IsSop sop.now }
    requires guard { IsSmallGuard sop.now guard }
    requires term { IsSmallScaled sop.now term }
    requires stands { Stands sop.now guard work.old }
    ensures ok { OnOk result (work.new ≡ with_scaled sop.now guard term work.old) }
    ensures stands { OnOk result (Stands sop.now guard work.new) }
    ensures sum { OnOk result (HasScaled sop.now guard term work.old work.new) }
{
    if is_zero(term.coefficient) {
        return Ok(());
    }
    rows_of(
        alloc,
        scaled_fraction(sop, guard, term),
        0,
        term.input as usize,
        format_of(sop, term.input).signed,
        &mut work.net,
        &mut work.heap,
    )?;
    Ok(())
}

/// The tables of all constants, in their order.
pub(crate) fn add_all_scaled(
    alloc: Global,
    sop: &Sop,
    guard: u32,
    work: &mut Work,
) -> Result<(), Memory>
    requires sop { IsSop sop.now }
    requires guard { IsSmallGuard sop.now guard }
    requires terms { HasSmallTerms sop.now }
    requires stands { Stands sop.now guard work.old }
    requires summed { AreSummed sop.now guard sop.now.scaled sop.now.products work.old }
    ensures ok { OnOk result (work.new ≡ with_all_scaled sop.now guard sop.now.scaled work.old) }
    ensures stands { OnOk result (Stands sop.now guard work.new) }
    ensures summed { OnOk result (AreSummed sop.now guard [] sop.now.products work.new) }
{
    'terms: for term in sop.scaled.as_slice() {
        add_scaled(alloc, sop, guard, *term, work)?;
    }
    Ok(())
}
