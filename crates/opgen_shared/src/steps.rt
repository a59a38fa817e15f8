//! The best step to a number, over all numbers that stand and all shifts.
ghost use Rattle.std.specs.Prelude.{◌≡◌, ◌*◌, ◌^◌, ◌≤◌, ◌<◌, Contains};
ghost use Rattle.opgen_graph.specs.Reach.{IsWide, IsWideMember};
ghost use Rattle.opgen_shared.specs.Digits.{HasDigits, digit_count};
ghost use Rattle.opgen_shared.specs.Rule.{IsBest};
ghost use Rattle.opgen_shared.specs.Sums.{AreSums, placed_by};
ghost use Rattle.opgen_shared.specs.Steps.{IsCandidate, IsDigitAdder, IsNotAfter, IsLeastOf, IsShifted};
ghost use Rattle.opgen_shared.specs.Steps.{IsDistanceTo, IsSumWith, IsShiftedDistance, IsShiftedSum, HasOperand};

use crate::candidates::{Candidate, better, ranked};
use crate::parts::split_odd;
use crate::sums::{LIMIT, Sums};
use crate::weights::weight;
use opgen_graph::{Adder, Form, Step};

fn adder_of(value: u32, form: Form, shift: u32, u: u32, v: u32) -> Adder
    ensures { result ≡ record { value = value; u = u; v = v; step = record { form = form; shift = shift } } }
{
    let step = Step { form, shift };
    Adder { value, u, v, step }
}

// The adder of the lowest digit.
fn digit_adder(number: u32) -> Adder
    requires { IsWideMember number }
    ensures { IsDigitAdder number result }
{
    if number % 4 == 1 {
        let (rest, shift) = split_odd(number - 1);
        return adder_of(number, Form::A, shift, rest, 1);
    }
    let (rest, shift) = split_odd(number + 1);
    adder_of(number, Form::B, shift, rest, 1)
}

// The step that takes off the lowest digit.
fn digit_step(sums: &Sums, number: u32) -> Candidate
    requires sums { AreSums sums.now.adders sums.now.levels.items }
    requires number { IsWideMember number }
    ensures { IsCandidate sums.now.adders number result }
{
    let adder = digit_adder(number);
    let weight = weight(sums, adder.u);
    ranked(sums, adder, adder.u, weight)
}

// The better of a candidate and the step by the distance between the number and one that stands.
fn with_distance(sums: &Sums, best: Candidate, number: u32, operand: u32, count: u32) -> Candidate
    requires sums { AreSums sums.now.adders sums.now.levels.items }
    requires number { IsWide number }
    requires operand { IsWide operand }
    requires stands { Contains (placed_by sums.now.adders) operand }
    requires other { number ≡ operand → ⊥ }
    requires best { IsCandidate sums.now.adders number best }
    requires count { count ≡ digit_count number }
    ensures candidate { IsCandidate sums.now.adders number result }
    ensures kept { IsNotAfter sums.now.adders result.adder best.adder }
    ensures least { IsLeastOf sums.now.adders number (IsDistanceTo operand) result }
{
    let (rest, shift) = split_odd(number.abs_diff(operand));
    let form = if operand < number { Form::A } else { Form::C };
    let adder = adder_of(number, form, shift, rest, operand);
    better(sums, best, adder, rest, count)
}

// The better of a candidate and the step by the sum of the number and one that stands.
fn with_sum(sums: &Sums, best: Candidate, number: u32, operand: u32, count: u32) -> Candidate
    requires sums { AreSums sums.now.adders sums.now.levels.items }
    requires number { IsWide number }
    requires operand { IsWide operand }
    requires stands { Contains (placed_by sums.now.adders) operand }
    requires best { IsCandidate sums.now.adders number best }
    requires count { count ≡ digit_count number }
    ensures candidate { IsCandidate sums.now.adders number result }
    ensures kept { IsNotAfter sums.now.adders result.adder best.adder }
    ensures least { IsLeastOf sums.now.adders number (IsSumWith operand) result }
{
    let (rest, shift) = split_odd(number + operand);
    let adder = adder_of(number, Form::B, shift, rest, operand);
    better(sums, best, adder, rest, count)
}

// A number that stands, shifted.
#[derive(Clone, Copy)]
struct Shifted {
    operand: u32,
    shift: u32,
    size: u32,
}

// The better of a candidate and the step by the distance between the number and one that stands, shifted.
fn with_shifted_distance(
    sums: &Sums,
    best: Candidate,
    number: u32,
    by: Shifted,
    count: u32,
) -> Candidate
    requires sums { AreSums sums.now.adders sums.now.levels.items }
    requires number { IsWide number }
    requires shifted { IsShifted by }
    requires stands { Contains (placed_by sums.now.adders) by.operand }
    requires best { IsCandidate sums.now.adders number best }
    requires count { count ≡ digit_count number }
    ensures candidate { IsCandidate sums.now.adders number result }
    ensures kept { IsNotAfter sums.now.adders result.adder best.adder }
    ensures least { IsLeastOf sums.now.adders number (IsShiftedDistance by) result }
{
    let rest = number.abs_diff(by.size);
    if rest >= LIMIT {
        return best;
    }
    let form = if by.size < number { Form::A } else { Form::B };
    let adder = adder_of(number, form, by.shift, by.operand, rest);
    better(sums, best, adder, rest, count)
}

// The better of a candidate and the step by the sum of the number and one that stands, shifted.
fn with_shifted_sum(sums: &Sums, best: Candidate, number: u32, by: Shifted, count: u32) -> Candidate
    requires sums { AreSums sums.now.adders sums.now.levels.items }
    requires number { IsWide number }
    requires shifted { IsShifted by }
    requires stands { Contains (placed_by sums.now.adders) by.operand }
    requires best { IsCandidate sums.now.adders number best }
    requires count { count ≡ digit_count number }
    ensures candidate { IsCandidate sums.now.adders number result }
    ensures kept { IsNotAfter sums.now.adders result.adder best.adder }
    ensures least { IsLeastOf sums.now.adders number (IsShiftedSum by) result }
{
    let rest = number + by.size;
    if rest >= LIMIT {
        return best;
    }
    let adder = adder_of(number, Form::C, by.shift, by.operand, rest);
    better(sums, best, adder, rest, count)
}

// The best of a candidate and the steps by one number that stands.
fn with_operand(sums: &Sums, best: Candidate, number: u32, operand: u32, count: u32) -> Candidate
    requires sums { AreSums sums.now.adders sums.now.levels.items }
    requires number { IsWide number }
    requires operand { IsWide operand }
    requires stands { Contains (placed_by sums.now.adders) operand }
    requires other { number ≡ operand → ⊥ }
    requires best { IsCandidate sums.now.adders number best }
    requires count { count ≡ digit_count number }
    ensures candidate { IsCandidate sums.now.adders number result }
    ensures kept { IsNotAfter sums.now.adders result.adder best.adder }
    ensures least { IsLeastOf sums.now.adders number (HasOperand operand) result }
{
    let by_distance = with_distance(sums, best, number, operand, count);
    let mut least = with_sum(sums, by_distance, number, operand, count);
    let mut shift = 1;
    let mut size = operand + operand;
    'shifts: while size < 2 * LIMIT {
        let by = Shifted {
            operand,
            shift,
            size,
        };
        least = with_shifted_distance(sums, least, number, by, count);
        least = with_shifted_sum(sums, least, number, by, count);
        shift += 1;
        size += size;
    }
    least
}

// The step to a number that none comes before.
pub(crate) fn best_step(sums: &Sums, number: u32, count: u32) -> Candidate
    requires sums { AreSums sums.now.adders sums.now.levels.items }
    requires number { IsWideMember number }
    requires new { Contains (placed_by sums.now.adders) number → ⊥ }
    requires count { count ≡ digit_count number }
    ensures candidate { IsCandidate sums.now.adders number result }
    ensures best { IsBest sums.now.adders number result.adder }
    ensures lighter { result.weight < count }
{
    let first = digit_step(sums, number);
    let mut least = with_operand(sums, first, number, 1, count);
    'adders: for adder in sums.adders.as_slice() {
        least = with_operand(sums, least, number, adder.value, count);
    }
    least
}
