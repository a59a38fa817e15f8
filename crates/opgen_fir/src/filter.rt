//! Builds the net of a scale or filter: delayed inputs, tables of coefficients, a bit heap, its compression, and the output.
ghost use Rattle.std.specs.Prelude.{◌≡◌, ◌∷◌, [], map, codes, IfOk};
ghost use Rattle.opgen_operator.specs.declared.operator.Operator.TheVariants.{Scale, Fir};
ghost use Rattle.opgen_operator.specs.Fits.{FitsInEachMode};
ghost use Rattle.opgen_kinds.specs.Sum.{IsAcceptedSum};
ghost use Rattle.opgen_fir.specs.Recipe.{net_of_sum};

use crate::taps::tapped;
use crate::terms::{add_half, add_terms};
use opgen_compress::compress;
use opgen_gpc::count_if;
use opgen_heap::Heap;
use opgen_net::{Net, Slice};
use opgen_num::Memory;
use opgen_operator::Sum;
use std::alloc::Global;

/// The net of a sum: input `x`, and output `y`.
///
/// The input has a delay for each cycle that a coefficient reaches back. Each coefficient that is
/// not 0 has its tables on the input of its cycle. Tables that round have guard bits below the
/// output's last place, and half a unit of it is added before they are dropped. Larger counters go
/// before the compressor where they are asked for.
pub fn build(alloc: Global, sum: &Sum) -> Result<Net, Memory>
    requires sum { IsAcceptedSum sum.now }
    ensures net { IfOk result (λ net. net ≡ net_of_sum sum.now) }
    ensures fits { IfOk result (λ net. FitsInEachMode (Scale sum.now) net × FitsInEachMode (Fir sum.now) net) }
    ensures inputs { IfOk result (λ net. net.inputs ≡ (codes "x", sum.now.input.width) ∷ []) }
    ensures outputs { IfOk result (λ net. map (λ o. o.name) net.outputs ≡ codes "y" ∷ []) }
{
    let guard = sum.guard_bits();
    let width = sum.output().width + guard;
    let mut net = tapped(alloc, sum)?;
    let mut heap = Heap::new(alloc, width);
    add_terms(alloc, sum, &mut net, &mut heap)?;
    add_half(guard, &mut heap);
    let counted = count_if(alloc, sum.compressor.has_counters(), heap, &mut net)?;
    let node = compress(alloc, counted, &mut net)?;
    net.output(
        "y",
        Slice {
            node,
            high: width - 1,
            low: guard,
        },
    )?;
    Ok(net)
}
