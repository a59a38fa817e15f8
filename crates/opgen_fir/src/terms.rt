//! Adds the tables of all coefficients and the rounding constant to the bit heap of a scale or filter.

ghost use Rattle.std.specs.Prelude.{◌≡◌, ◌<◌, ◌≤◌, pos, false, length, get_or, OnOk};
ghost use Rattle.opgen_heap.specs.Standing.{AllThere};
ghost use Rattle.opgen_net.specs.Valid.{IsValid};
ghost use Rattle.opgen_kinds.specs.Sum.{IsAcceptedSum};
ghost use Rattle.opgen_kcm.specs.Recipe.{HasTermsMore, input_width};
ghost use Rattle.opgen_fir.specs.Recipe.{is_zero, tapped, terms_in, no_terms, with_term, with_terms, with_half};
ghost use Rattle.opgen_fir.specs.Summed.{AddsTerm, AddsAllTerms};

use crate::factor::factor;
use opgen_heap::Heap;
use opgen_kcm::rows_of;
use opgen_net::Net;
use opgen_num::{Memory, signed_power};
use opgen_operator::{Sum, entries_are_small};
use std::alloc::Global;

fn is_zero(coef: i64) -> bool
    ensures { result ≡ is_zero coef }
{
    coef.unsigned_abs() == 0
}

// The tables of a coefficient on its tap. A coefficient 0 has none.
fn add_term(
    alloc: Global,
    sum: &Sum,
    tap: usize,
    coef: i64,
    net: &mut Net,
    heap: &mut Heap,
) -> Result<(), Memory>
    requires sum { IsAcceptedSum sum.now }
    requires tap { tap < length sum.now.coefs }
    requires coef { get_or sum.now.coefs tap (pos 0) ≡ coef }
    requires net { IsValid net.old }
    requires there { is_zero coef ≡ false → tap < length net.old.nodes }
    requires width { is_zero coef ≡ false → input_width net.old tap ≡ sum.now.input.width }
    requires bits { AllThere net.old heap.old.columns }
    ensures net { OnOk result (net.new ≡ (with_term sum.now tap coef (terms_in net.old heap.old)).net) }
    ensures heap { OnOk result (heap.new ≡ (with_term sum.now tap coef (terms_in net.old heap.old)).heap) }
    ensures more { OnOk result (HasTermsMore (terms_in net.old heap.old) (terms_in net.new heap.new)) }
    ensures term { OnOk result (AddsTerm sum.now tap coef (terms_in net.old heap.old) (terms_in net.new heap.new)) }
    ensures valid { IsValid net.new }
{
    entries_are_small();
    if is_zero(coef) {
        return Ok(());
    }
    let guard = sum.guard_bits();
    rows_of(
        alloc,
        factor(sum, coef),
        guard,
        tap,
        sum.input.signed,
        net,
        heap,
    )?;
    Ok(())
}

/// The tables of all coefficients, in their order.
pub(crate) fn add_terms(
    alloc: Global,
    sum: &Sum,
    net: &mut Net,
    heap: &mut Heap,
) -> Result<(), Memory>
    requires sum { IsAcceptedSum sum.now }
    requires net { net.old ≡ tapped sum.now }
    requires valid { IsValid net.old }
    requires heap { heap.old ≡ (no_terms sum.now).heap }
    ensures net { OnOk result (net.new ≡ (with_terms sum.now (length sum.now.coefs)).net) }
    ensures heap { OnOk result (heap.new ≡ (with_terms sum.now (length sum.now.coefs)).heap) }
    ensures more { OnOk result (HasTermsMore (no_terms sum.now) (terms_in net.new heap.new)) }
    ensures bits { OnOk result (AllThere net.new heap.new.columns) }
    ensures sum { OnOk result (AddsAllTerms sum.now (terms_in net.old heap.old) (terms_in net.new heap.new)) }
    ensures valid { IsValid net.new }
{
    'taps: for tap in 0..sum.coefs.len() {
        let coef = sum.coefs.as_slice()[tap];
        add_term(alloc, sum, tap, coef, net, heap)?;
    }
    Ok(())
}

/// Half a unit of the output's last place, where there are guard bits below it.
pub(crate) fn add_half(guard: u32, heap: &mut Heap)
    requires { guard ≤ 12 }
    ensures { heap.new ≡ with_half guard heap.old }
{
    if guard > 0 {
        heap.add_constant(signed_power(guard - 1));
    }
}
