//! The last adder that a number may have, with its rank among all of them.
ghost use Rattle.std.specs.Prelude.{◌≡◌, ◌↔◌, ◌+◌, ◌-◌, ◌≤◌, ◌<◌, IsTrue};
ghost use Rattle.opgen_graph.specs.Adders.{place};
ghost use Rattle.opgen_graph.specs.Reach.{IsWide};
ghost use Rattle.opgen_graph.specs.SetCost.{bit_length};
ghost use Rattle.opgen_shared.specs.Digits.{digit_count};
ghost use Rattle.opgen_shared.specs.Rule.{IsShiftedLeft, IsStepTo, IsRankedBefore, heavier};
ghost use Rattle.opgen_shared.specs.Rule as rule;
ghost use Rattle.opgen_shared.specs.Sums.{AreSums, placed_by};
ghost use Rattle.opgen_shared.specs.Steps.{IsRest, IsCandidate, IsNotAfter};

use crate::sums::{Sums, operand_level, stands};
use crate::weights::weight;
use opgen_graph::{Adder, Form};
use std::cmp::Ordering;

// An adder of a number that stands and of a rest, the weight of the rest, and the rank of the adder.
#[derive(Clone, Copy, Debug)]
pub(crate) struct Candidate {
    pub(crate) adder: Adder,
    pub(crate) rest: u32,
    pub(crate) weight: u32,
    pub(crate) rank: [u32; 7],
}

// Up to this level of its operands an adder counts as quick.
const QUICK: u32 = 2;

// The level that a number of so many digits has at least: that of a tree of them.
fn expected_level(weight: u32) -> u32
    requires { 1 ≤ weight }
    ensures { result ≡ 1 + bit_length (weight - 1) }
{
    33 - (weight - 1).leading_zeros()
}

// The number of a form in the order of forms.
fn form_place(form: Form) -> u32
    ensures { result ≡ place form }
{
    match form {
        Form::A => 0,
        Form::B => 1,
        Form::C => 2,
        Form::D => 3,
        Form::E => 4,
    }
}

// The rank of an adder whose heavier operand has a weight.
fn rank(sums: &Sums, adder: Adder, weight: u32) -> [u32; 7]
    requires sums { AreSums sums.now.adders sums.now.levels.items }
    requires u { IsWide adder.u }
    requires v { IsWide adder.v }
    requires weight { weight ≡ heavier sums.now.adders adder }
    ensures { result ≡ rule.rank sums.now.adders adder }
{
    let level = u32::from(operand_level(sums, adder)).max(expected_level(weight));
    [
        level.saturating_sub(QUICK),
        weight,
        level,
        adder.u,
        adder.v,
        adder.step.shift,
        form_place(adder.step.form),
    ]
}

// Whether the rank of a candidate is before that of another one.
fn is_before(candidate: Candidate, other: Candidate) -> bool
    ensures { IsTrue result ↔ IsRankedBefore candidate.rank other.rank }
{
    candidate.rank.as_slice().cmp(other.rank.as_slice()) == Ordering::Less
}

// The candidate of an adder whose rest has a weight.
pub(crate) fn ranked(sums: &Sums, adder: Adder, rest: u32, weight: u32) -> Candidate
    requires sums { AreSums sums.now.adders sums.now.levels.items }
    requires adder { IsShiftedLeft adder }
    requires rest { IsRest (placed_by sums.now.adders) adder rest }
    requires weight { weight ≡ rule.weight sums.now.adders rest }
    requires lighter { weight < digit_count adder.value }
    ensures candidate { IsCandidate sums.now.adders adder.value result }
    ensures adder { result.adder ≡ adder }
{
    let rank = rank(sums, adder, weight);
    Candidate {
        adder,
        rest,
        weight,
        rank,
    }
}

// The better of a candidate and of a further adder, whose rest has to weigh less than a count.
pub(crate) fn better(sums: &Sums, best: Candidate, adder: Adder, rest: u32, count: u32) -> Candidate
    requires sums { AreSums sums.now.adders sums.now.levels.items }
    requires best { IsCandidate sums.now.adders adder.value best }
    requires adder { IsShiftedLeft adder }
    requires rest { IsRest (placed_by sums.now.adders) adder rest }
    requires count { count ≡ digit_count adder.value }
    ensures candidate { IsCandidate sums.now.adders adder.value result }
    ensures kept { IsNotAfter sums.now.adders result.adder best.adder }
    ensures least { IsStepTo sums.now.adders adder.value adder → IsNotAfter sums.now.adders result.adder adder }
{
    if best.weight == 1 && best.rank[0] == 0 && !stands(sums, rest) {
        return best;
    }
    let weight = weight(sums, rest);
    if weight >= count {
        return best;
    }
    let other = ranked(sums, adder, rest, weight);
    if is_before(other, best) { other } else { best }
}
