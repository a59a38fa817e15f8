//! The net of a quotient: one digit for each bit of the numerator, from the highest, signed inputs by their absolute
//! values (de Dinechin and Kumm, Application-Specific Arithmetic, on restoring division, and Ercegovac and Lang, Division
//! and Square Root, on division without restoring).
//!
//! Proved: For every pair that a version accepts, the net is that of the recipe. At every time and for all inputs the
//! numbers that are divided are the absolute values of the inputs. After each step, if the divisor is not 0, the
//! numerator so far is the quotient so far times the divisor plus a rest: one below the divisor, or without restoring
//! one of at most the divisor in size. A node that has a sign taken off or put to it has the absolute value, or the
//! number or its opposite. The net fits the operator.
//!
//! By: `build`; of the crate's own calls `absolute_of`, `with_sign`.
#![tactic(auto)]

mod restoring;
mod results;
mod sign;
#[cfg(test)]
mod tests;

ghost use Rattle.std.specs.Prelude.{◌≡◌, IfOk, OnOk};
ghost use Rattle.opgen_net.specs.Valid.{IsValid};
ghost use Rattle.opgen_operator.specs.declared.operator.Operator.TheVariants.{Divide};
ghost use Rattle.opgen_operator.specs.Fits.{FitsInEachMode};
ghost use Rattle.opgen_kinds.specs.Pair.{IsAcceptedPair};
ghost use Rattle.opgen_digits.specs.Digit.{known_in};
ghost use Rattle.opgen_divide.specs.Recipe.{with_inputs, with_magnitudes, numerator as numerator_of, divided_sizes, net_of_pair};
ghost use Rattle.opgen_divide.specs.Steps.{DividesSizes, HoldsAfterEachStep};

use crate::restoring::{divide, divisor};
use crate::results::with_signs;
use crate::sign::absolute_of;
use opgen_digits::{Digits, output_results};
use opgen_list::Items;
use opgen_net::{Net, WordBit, push_bits, push_zeros};
use opgen_nonrestoring::Divisor;
use opgen_num::Memory;
use opgen_operator::Pair;
use opgen_ports::Recurrence;
use std::alloc::{AllocError, Global};

// The net of the two inputs.
fn inputs(alloc: Global, pair: &Pair) -> Result<Net, Memory>
    requires { IsAcceptedPair pair.now }
    ensures net { IfOk result (λ net. net ≡ with_inputs pair.now) }
    ensures valid { IfOk result IsValid }
{
    let mut net = Net::new(alloc);
    let _a = net.input("a", pair.a.width)?;
    let _b = net.input("b", pair.b.width)?;
    Ok(net)
}

// The nodes of the dividend and the divisor without their signs.
#[derive(Clone, Copy)]
struct Magnitudes {
    dividend: usize,
    divisor: usize,
}

// The absolute values of signed inputs; unsigned ones are the inputs themselves.
fn without_signs(alloc: Global, pair: &Pair, net: &mut Net) -> Result<Magnitudes, Memory>
    requires pair { IsAcceptedPair pair.now }
    requires net { net.old ≡ with_inputs pair.now }
    requires valid { IsValid net.old }
    ensures ok { OnOk result (net.new ≡ (with_magnitudes pair.now).net) }
    ensures dividend { IfOk result (λ m. m.dividend ≡ (with_magnitudes pair.now).dividend) }
    ensures divisor { IfOk result (λ m. m.divisor ≡ (with_magnitudes pair.now).divisor) }
    ensures valid { IsValid net.new }
{
    if !pair.a.signed {
        return Ok(Magnitudes {
            dividend: 0,
            divisor: 1,
        });
    }
    let dividend = absolute_of(alloc, net, 0, pair.a.width)?;
    let divisor = absolute_of(alloc, net, 1, pair.b.width)?;
    Ok(Magnitudes { dividend, divisor })
}

// The bits of the dividend, and below them as many zeros as it is shifted up.
fn numerator(alloc: Global, pair: &Pair, dividend: usize) -> Result<Items<WordBit>, AllocError>
    requires pair { IsAcceptedPair pair.now }
    requires dividend { dividend ≡ (with_magnitudes pair.now).dividend }
    ensures { IfOk result (λ bits. bits ≡ numerator_of pair.now) }
{
    let mut bits = Items::new(alloc);
    push_bits(&mut bits, dividend, 0, pair.a.width)?;
    push_zeros(&mut bits, pair.shift() as u32)?;
    Ok(bits)
}

// The quotient and the remainder of the numbers without their signs, by the recurrence that is asked for.
fn divide_sizes(
    alloc: Global,
    pair: &Pair,
    magnitudes: Magnitudes,
    net: &mut Net,
) -> Result<Digits, Memory>
    requires pair { IsAcceptedPair pair.now }
    requires net { net.old ≡ (with_magnitudes pair.now).net }
    requires dividend { magnitudes.dividend ≡ (with_magnitudes pair.now).dividend }
    requires divisor { magnitudes.divisor ≡ (with_magnitudes pair.now).divisor }
    requires valid { IsValid net.old }
    ensures ok { IfOk result (λ d. divided_sizes pair.now ≡ known_in net.new d) }
    ensures valid { IfOk result (λ d. IsValid net.new) }
{
    let numerator = numerator(alloc, pair, magnitudes.dividend)?;
    let bits = numerator.as_slice();
    match pair.recurrence {
        Recurrence::Restoring => {
            let divisor = divisor(alloc, pair, magnitudes.divisor, net)?;
            divide(alloc, pair, divisor, bits, net)
        }
        Recurrence::Nonrestoring => {
            let divisor = Divisor {
                node: magnitudes.divisor,
                width: pair.b.width,
            };
            opgen_nonrestoring::divide(alloc, net, bits, divisor, pair.exact)
        }
    }
}

/// The net of a quotient `q` of the inputs `a` and `b`, and where it is exact of the remainder `r`.
///
/// The digits of `q` are made from the highest down. For each one the divisor is taken off what the
/// digits before have left, with the next bit of the numerator below it. Where that was too much,
/// the divisor is put back, or without restoring added in the next step in place of taken off. Of
/// signed inputs the absolute values are divided, so that the quotient is rounded towards 0; it gets
/// the opposite sign if exactly one input is below 0, and the remainder if the dividend is. A cycle
/// in which `b` is 0 has some quotient, and changes no other cycle.
pub fn build(alloc: Global, pair: &Pair) -> Result<Net, Memory>
    requires { IsAcceptedPair pair.now }
    ensures net { IfOk result (λ net. net ≡ net_of_pair pair.now) }
    ensures sizes { IfOk result (DividesSizes pair.now) }
    ensures steps { IfOk result (HoldsAfterEachStep pair.now) }
    ensures fits { IfOk result (FitsInEachMode (Divide pair.now)) }
{
    let mut net = inputs(alloc, pair)?;
    let magnitudes = without_signs(alloc, pair, &mut net)?;
    let digits = divide_sizes(alloc, pair, magnitudes, &mut net)?;
    let results = with_signs(alloc, pair, &mut net, digits)?;
    output_results(&mut net, "q", &results, pair.exact)?;
    Ok(net)
}
