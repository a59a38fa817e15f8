//! Builds the net of a sum of products: inputs, tables, products of bits, a constant, the heap's compression, and the output.
ghost use Rattle.std.specs.Prelude.{◌≡◌, ◌+◌, ◌≤◌, pos, ◌+ℤ◌, unsigned_abs, IfOk};
ghost use Rattle.opgen_terms.specs.Sop.{IsSop, IsAcceptedSop, sop_format};
ghost use Rattle.opgen_operator.specs.declared.operator.Operator.TheVariants.{Sop as sop_operator};
ghost use Rattle.opgen_operator.specs.Fits.{FitsInEachMode};
ghost use Rattle.opgen_sop.specs.Recipe.{IsNetOfSop, with_offset, added, heap_width};
ghost use Rattle.opgen_sop.specs.Sizes.{floor, offset_fraction, rounding, IsGuard};
ghost use Rattle.opgen_sop.specs.Small.{IsSmallGuard, HasSmallTerms};
ghost use Rattle.opgen_sop.specs.Summed.{Stands};

use crate::budget::{guard_bits, rounding};
use crate::fractions::{floor, offset_fraction};
use crate::inputs::start;
use crate::products::add_all_times;
use crate::scaled::add_all_scaled;
use opgen_compress::compress;
use opgen_design::Slice;
use opgen_gpc::count_if;
use opgen_net::Net;
use opgen_num::Memory;
use opgen_operator::Sop;
use opgen_partial::Work;
use std::alloc::Global;

// The offset, and what rounds the sum.
fn add_offset(sop: &Sop, guard: u32, work: &mut Work)
    requires sop { IsSop sop.now }
    requires guard { guard ≤ 11 }
    requires terms { HasSmallTerms sop.now }
    ensures { work.new ≡ with_offset sop.now guard work.old }
{
    work.heap.add_constant(floor(offset_fraction(sop, guard)));
    work.heap.add_constant(rounding(sop, guard).into());
}

/// The net of the sum of products `y`.
///
/// Constants have tables on their inputs, and products of inputs have the products of their bits, of a number with itself each pair
/// of bits once. All are added in one heap, with guard bits below the output's last place, so that all that is rounded or left out
/// comes to less than one unit of the output. The offset, half a unit or more if that does not make good what is lost, and what makes
/// good turned bits are one constant. Larger counters go before the compressor where they are asked for.
pub fn build(alloc: Global, sop: &Sop) -> Result<Net, Memory>
    requires { IsAcceptedSop sop.now }
    ensures net { IfOk result (IsNetOfSop sop.now) }
    ensures fits { IfOk result (FitsInEachMode (sop_operator sop.now)) }
{
    let guard = guard_bits(sop);
    let width = sop.output().width + guard;
    let mut work = start(alloc, sop, guard, width)?;
    add_all_scaled(alloc, sop, guard, &mut work)?;
    add_all_times(alloc, sop, guard, &mut work)?;
    add_offset(sop, guard, &mut work);
    let Work { mut net, heap } = work;
    let counted = count_if(alloc, sop.compressor.has_counters(), heap, &mut net)?;
    let node = compress(alloc, counted, &mut net)?;
    net.output(
        "y",
        Slice {
            node,
            high: width - 1,
            low: guard,
        },
    )?;
    Ok(net)
}
