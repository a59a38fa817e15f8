//! Adds the products of the bits of inputs to the bit heap of a sum of products.
ghost use Rattle.std.specs.Prelude.{◌≡◌, [], OnOk};
ghost use Rattle.opgen_terms.specs.Sop.{IsSop};
ghost use Rattle.opgen_sop.specs.Recipe.{with_times, with_all_times};
ghost use Rattle.opgen_sop.specs.Small.{IsSmallTimes, IsSmallGuard, HasSmallTerms};
ghost use Rattle.opgen_sop.specs.Summed.{Stands, HasTimes, AreSummed};

use crate::fractions::{floor, placing, products, turned_fraction};
use opgen_num::Memory;
use opgen_operator::{Sop, Times};
use opgen_partial::{Work, add_placed};
use std::alloc::Global;

// The products of the bits of two inputs, and what makes good the turned ones.
fn add_times(
    alloc: Global,
    sop: &Sop,
    guard: u32,
    term: Times,
    work: &mut Work,
) -> Result<(), Memory>
    requires sop { IsSop sop.now }
    requires guard { IsSmallGuard sop.now guard }
    requires term { IsSmallTimes sop.now term }
    requires stands { Stands sop.now guard work.old }
    ensures ok { OnOk result (work.new ≡ with_times sop.now guard term work.old) }
    ensures stands { OnOk result (Stands sop.now guard work.new) }
    ensures sum { OnOk result (HasTimes sop.now guard term work.old work.new) }
{
    let products = products(sop, guard, term);
    add_placed(alloc, &products, placing(sop, guard, term), work)?;
    work.heap
        .add_constant(floor(turned_fraction(sop, guard, term)));
    Ok(())
}

/// All products, in their order.
pub(crate) fn add_all_times(
    alloc: Global,
    sop: &Sop,
    guard: u32,
    work: &mut Work,
) -> Result<(), Memory>
    requires sop { IsSop sop.now }
    requires guard { IsSmallGuard sop.now guard }
    requires terms { HasSmallTerms sop.now }
    requires stands { Stands sop.now guard work.old }
    requires summed { AreSummed sop.now guard [] sop.now.products work.old }
    ensures ok { OnOk result (work.new ≡ with_all_times sop.now guard sop.now.products work.old) }
    ensures stands { OnOk result (Stands sop.now guard work.new) }
    ensures summed { OnOk result (AreSummed sop.now guard [] [] work.new) }
{
    'terms: for term in sop.products.as_slice() {
        add_times(alloc, sop, guard, *term, work)?;
    }
    Ok(())
}
