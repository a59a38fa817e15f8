//! How many adders a number needs at most, by its signed digits: one less than its weight.
ghost use Rattle.std.specs.Prelude.{◌≡◌, ℕ, ◌≤◌, ◌<◌, ◌^◌};
ghost use Rattle.opgen_graph.specs.Reach.{IsWide};
ghost use Rattle.opgen_shared.specs.Digits.{HasDigits};
ghost use Rattle.opgen_shared.specs.Rule as rule;
ghost use Rattle.opgen_shared.specs.Sums.{AreSums};

use crate::sums::{Sums, stands};
use opgen_csd::recode;

// The number of signed digits that are not zero.
pub(crate) fn digit_count(number: u32) -> u32
    requires { number < 2 ^ 21 }
    ensures { HasDigits number result }
{
    recode(i64::from(number)).count()
}

// 1 where the number stands, and else the number of its digits.
pub(crate) fn weight(sums: &Sums, number: u32) -> u32
    requires sums { AreSums sums.now.adders sums.now.levels.items }
    requires number { IsWide number }
    ensures weight { result ≡ rule.weight sums.now.adders number }
    ensures most { (count : ℕ) → HasDigits number count → result ≤ count }
{
    if stands(sums, number) {
        return 1;
    }
    digit_count(number)
}
