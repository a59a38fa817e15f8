//! The graph of many numbers: their odd parts in increasing order, each by its best steps.
ghost use Rattle.std.specs.Prelude.{ℕ, ◌+◌, ◌≤◌, [], length, All, Contains, IfOk, OnOk};
ghost use Rattle.opgen_num.specs.declared.limits.TheConstants.{MAX_CONSTANT};
ghost use Rattle.opgen_ports.specs.Ranges.{IsWithin};
ghost use Rattle.opgen_graph.specs.Reach.{IsWide};
ghost use Rattle.opgen_graph.specs.Served.{Serves};
ghost use Rattle.opgen_shared.specs.Digits.{IsWithinDigits, digit_count};
ghost use Rattle.opgen_shared.specs.Rule.{Grows, IsRuleGraph};
ghost use Rattle.opgen_shared.specs.Shared.{IsSharedGraph};
ghost use Rattle.opgen_shared.specs.Sums.{AreSums, placed_by};
ghost use Rattle.opgen_shared.specs.Steps.{Weighs, AreLight};

use crate::parts::odd_parts;
use crate::steps::best_step;
use crate::sums::{Sums, first_sums, place, stands};
use crate::weights::digit_count;
use opgen_graph::Graph;
use opgen_num::Memory;
use std::alloc::{AllocError, Global};

// Makes a number, unless it stands: first the rest of its best step, and then the number. Numbers that are made on the way
// have no more digits than its weight.
fn make(sums: &mut Sums, number: u32, weight: u32) -> Result<(), AllocError>
    requires sums { AreSums sums.old.adders sums.old.levels.items }
    requires number { IsWide number }
    requires weight { Weighs (placed_by sums.old.adders) number weight }
    ensures sums { OnOk result (AreSums sums.new.adders sums.new.levels.items) }
    ensures grows { OnOk result (Grows sums.old.adders number sums.new.adders) }
    ensures made { OnOk result (Contains (placed_by sums.new.adders) number) }
    ensures kept { OnOk result ((x : ℕ) → Contains (placed_by sums.old.adders) x → Contains (placed_by sums.new.adders) x) }
    ensures light { OnOk result (AreLight sums.old.adders weight sums.new.adders) }
    ensures few { OnOk result (length sums.new.adders + 1 ≤ length sums.old.adders + weight) }
{
    if stands(sums, number) {
        return Ok(());
    }
    let step = best_step(sums, number, weight);
    make(sums, step.rest, step.weight)?;
    place(sums, step.adder)
}

/// The graph of some numbers by a fixed rule: it holds their odd parts above 1.
///
/// The odd parts are made in increasing order. Each is made of a number that stands and of a rest with fewer signed digits, one
/// of the two shifted, and the rest is made first in the same way. The adder is no deeper than two, or least deeper; of such
/// adders it is the one whose rest has the fewest digits, then the shallowest, and then the least by its own numbers.
pub fn shared_graph(alloc: Global, numbers: &[i64]) -> Result<Graph, Memory>
    requires { All (IsWithin MAX_CONSTANT) numbers.now }
    ensures rule { IfOk result (λ graph. IsRuleGraph numbers.now graph.adders) }
    ensures graph { IfOk result (λ graph. IsSharedGraph graph.adders) }
    ensures serves { IfOk result (Serves numbers.now) }
    ensures few { IfOk result (λ graph. IsWithinDigits numbers.now graph.adders) }
{
    let parts = odd_parts(alloc, numbers)?;
    let mut sums = first_sums(alloc)?;
    'parts: for part in parts.as_slice() {
        make(&mut sums, *part, digit_count(*part))?;
    }
    Ok(Graph {
        adders: sums.adders,
    })
}
