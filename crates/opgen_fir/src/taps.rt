//! The input of a scale or filter, and a delay for each cycle that its coefficients reach back.

ghost use Rattle.std.specs.Prelude.{◌≡◌, ◌≤◌, ◌<◌, ◌-◌, length, IfOk};
ghost use Rattle.opgen_net.specs.Valid.{IsValid};
ghost use Rattle.opgen_kinds.specs.declared.sum.Sum.{Sum};
ghost use Rattle.opgen_kinds.specs.Sum.{IsAcceptedSum};
ghost use Rattle.opgen_fir.specs.Recipe.{taps, tapped};

use opgen_net::Net;
use opgen_num::Memory;
use opgen_operator::Sum;
use std::alloc::Global;

// How many coefficients there are up to the last that is not 0.
fn taps(coefs: &[i64]) -> usize
    ensures value { result ≡ taps coefs.now }
    ensures few { result ≤ length coefs.now }
{
    let mut count = coefs.len();
    'zeros: while count > 0 && coefs[count - 1] == 0 {
        count -= 1;
    }
    count
}

/// A net of the input, and of a delay for each cycle that a coefficient reaches back.
pub(crate) fn tapped(alloc: Global, sum: &Sum) -> Result<Net, Memory>
    requires { IsAcceptedSum sum.now }
    ensures ok { IfOk result (λ net. net ≡ tapped sum.now) }
    ensures valid { IfOk result IsValid }
{
    let mut net = Net::new(alloc);
    let _input = net.input("x", sum.input.width)?;
    'delays: for place in 0..taps(sum.coefs.as_slice()).saturating_sub(1) {
        let _delay = net.delay(place)?;
    }
    Ok(net)
}
