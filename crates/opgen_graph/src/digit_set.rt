//! The set of adders that the signed digits of the constants give, whose cost the search starts with.
ghost use Rattle.std.specs.Prelude.{◌↔◌, ◌⊎◌, ℕ, All, Contains, IfOk, OnOk};
ghost use Rattle.opgen_graph.specs.Reach.{Reaches};
ghost use Rattle.opgen_graph.specs.SignedDigits.{IsTarget, IsPartialOf, IsDigitSet};

use opgen_csd::recode;
use opgen_num::Memory;
use std::alloc::{AllocError, Global};

// Appends the partial sums of a target's signed digits.
fn append_partials(set: &mut Vec<u32>, target: u32) -> Result<(), AllocError>
    requires { IsTarget target }
    ensures { OnOk result ((x : ℕ) → Contains set.new.items x ↔ (Contains set.old.items x ⊎ IsPartialOf target x)) }
{
    let partials = recode(i64::from(target)).partials();
    for sum in partials.as_slice() {
        set.push(*sum as u32)?;
    }
    Ok(())
}

/// All partial sums of the signed digits of some targets, increasing, each once.
pub fn csd_set(alloc: Global, targets: &[u32]) -> Result<Vec<u32>, Memory>
    requires { All IsTarget targets.now }
    ensures set { IfOk result (λ set. IsDigitSet targets.now set.items) }
    ensures reaches { IfOk result (λ set. Reaches targets.now set.items) }
{
    let mut set = Vec::new(alloc);
    for target in targets {
        append_partials(&mut set, *target)?;
    }
    set.sort_unstable();
    set.dedup();
    Ok(set)
}
