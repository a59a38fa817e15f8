//! The net of a division by a small constant: a table for each digit of the input, from the highest (Ugurdag, de Dinechin
//! and others, Hardware division by small integer constants).
//!
//! Proved: For every division by a constant of 2 to 32 that a version accepts, the net is that of the recipe. After each
//! digit, at every time and for all inputs, the input so far is the quotient so far times the divisor plus a remainder below
//! the divisor. The net fits the operator.
//!
//! By: `build`.
#![tactic(auto)]

ghost use Rattle.std.specs.Prelude.{◌≡◌, IfOk};
ghost use Rattle.opgen_operator.specs.declared.operator.Operator.TheVariants.{Constdiv};
ghost use Rattle.opgen_operator.specs.Fits.{FitsInEachMode};
ghost use Rattle.opgen_kinds.specs.SmallDiv.{IsAcceptedSmallDiv};
ghost use Rattle.opgen_constdiv.specs.Recipe.{net_of};
ghost use Rattle.opgen_constdiv.specs.Steps.{HoldsAfterEachDigit};

mod digits;
mod rows;

use digits::division_net;
use opgen_net::Net;
use opgen_num::Memory;
use opgen_operator::SmallDiv;
use std::alloc::Global;

/// The net of the quotient `q` of the input `x` by a constant of 2 to 32, and where it is exact of
/// the remainder `r`.
///
/// The input is cut into digits of as many bits as a remainder leaves of six. From the highest
/// digit down, the remainder before it and the digit are the address of a table, which has the next
/// digit of the quotient and the next remainder.
pub fn build(alloc: Global, small: &SmallDiv) -> Result<Net, Memory>
    requires { IsAcceptedSmallDiv small.now }
    ensures net { IfOk result (λ net. net ≡ net_of small.now.exact small.now.input.width small.now.divisor) }
    ensures digits { IfOk result (HoldsAfterEachDigit small.now.input.width small.now.divisor) }
    ensures fits { IfOk result (FitsInEachMode (Constdiv small.now)) }
{
    let net = division_net(alloc, small.input.width, small.divisor, small.exact)?;
    Ok(net)
}
