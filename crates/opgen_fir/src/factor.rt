//! Converts a coefficient of a scale or filter to units of the output's last place (ulp).

ghost use Rattle.std.specs.Prelude.{◌≡◌, ◌^◌, ◌≤◌, pos, ◌*ℤ◌, unsigned_abs};
ghost use Rattle.opgen_num.specs.declared.limits.TheConstants.{MAX_NUMERATOR};
ghost use Rattle.opgen_kinds.specs.Sum.{IsAcceptedSum};
ghost use Rattle.opgen_ports.specs.Ranges.{IsWithin};
ghost use Rattle.opgen_fir.specs.Recipe.{factor};

use opgen_num::Ratio;
use opgen_operator::Sum;
use opgen_ports::shifts::{places_down, places_up, raised};

// A number of few bits, shifted up.
fn scaled(number: i64, places: u32) -> i128
    requires small { unsigned_abs number ≤ MAX_NUMERATOR }
    requires few { places ≤ 64 }
    ensures { result ≡ number *ℤ pos (2 ^ places) }
{
    raised(number.into(), places)
}

/// A coefficient in units of the output's last place.
pub(crate) fn factor(sum: &Sum, coef: i64) -> Ratio
    requires sum { IsAcceptedSum sum.now }
    requires coef { IsWithin MAX_NUMERATOR coef }
    ensures { result ≡ factor sum.now coef }
{
    let shift = sum.shift();
    Ratio {
        num: scaled(coef, places_up(shift)),
        den: scaled(sum.den, places_down(shift)),
    }
}
