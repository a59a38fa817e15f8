//! The net of a polynomial by Horner's rule in fixed point, with rounded products and some guard bits (de Dinechin and Kumm,
//! Application-Specific Arithmetic: polynomials, Horner's rule).
//!
//! Proved: For every polynomial that a version accepts, the net is that of the recipe. Each partial value between the first
//! and the last is less than (3 (n - i) + 1) / 2 units of the lowest guard bit from the exact one, at every time and for all
//! inputs; i is the place of its coefficient, n the last place. The net fits the operator. Each product leaves out the
//! greatest number of columns that weigh at most half a unit.
//!
//! By: `build`; the law `most_are_left_out` of `opgen_part_laws`.
#![tactic(auto)]

ghost use Rattle.std.specs.Prelude.{◌≡◌, IfOk};
ghost use Rattle.opgen_operator.specs.declared.operator.Operator.TheVariants.{Poly};
ghost use Rattle.opgen_operator.specs.Fits.{FitsInEachMode};
ghost use Rattle.opgen_kinds.specs.Poly.{IsAcceptedPoly};
ghost use Rattle.opgen_poly.specs.Near.{ArePartialsNear};
ghost use Rattle.opgen_poly.specs.Recipe.{net_of_poly};

mod numbers;
mod steps;

use opgen_net::Net;
use opgen_num::Memory;
use opgen_operator::Poly as Polynomial;
use std::alloc::Global;
use steps::polynomial_net;

/// The net of the value `y` of a polynomial at the input `x`.
///
/// From the last coefficient down, the partial value so far is multiplied by the input, without the lowest columns of the product,
/// and the next coefficient is added, in units of the lowest guard bit. The output is rounded to its last place; it is less than one
/// unit from the polynomial's value.
pub fn build(alloc: Global, poly: &Polynomial) -> Result<Net, Memory>
    requires { IsAcceptedPoly poly.now }
    ensures net { IfOk result (λ net. net ≡ net_of_poly poly.now) }
    ensures near { IfOk result (ArePartialsNear poly.now) }
    ensures fits { IfOk result (FitsInEachMode (Poly poly.now)) }
{
    let net = polynomial_net(alloc, poly)?;
    Ok(net)
}
