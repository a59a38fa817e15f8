//! Square roots of an unsigned input: what holds of them and of their remainders.
ghost use Rattle.std.specs.Prelude.{◌≡◌, ◌≤◌, ◌^◌, ℤ, ◌≤ℤ◌, IfOk, pos, unsigned_abs, ◌↔◌, IsTrue};
ghost use Rattle.opgen_ports.specs.Modes.{mode_of_exact};
ghost use Rattle.opgen_ports.specs.Meaning.{IsCycleJudged};
ghost use Rattle.opgen_ports.specs.Profile.{IsProfileOf};
ghost use Rattle.opgen_kinds.specs.Single.{root_width, root_format, rest_format, IsSingle, IsAcceptedSingle, root_shift, IsGoodSquareRoot, root_ports, single_meaning, single_acceptance};
ghost use Rattle.opgen_ports.specs.Ports.{output_numbers, IsHistory, IsCycle, one_input};

use opgen_num::{Format, good_root, is_root};
use opgen_ports::history::{output, recent};
use opgen_ports::modes::mode_of_exact;
use opgen_ports::ports::{PortFormat, one, unsigned, with_rest};
use opgen_ports::ranges::{is_input, is_near};
use opgen_ports::shifts::{places_up, raised};
use opgen_ports::{MAX_SHIFT, Profile};
use std::alloc::{AllocError, Global};

#[derive(Clone, Copy, Debug, PartialEq, Eq)]
pub struct Single {
    pub input: Format,
    pub out_lsb: i32,
    pub exact: bool,
}

impl Single {
    /// The power of two that brings the square into units of the square of the output's last place.
    pub fn shift(&self) -> i32
        requires { IsAcceptedSingle self.now }
        ensures value { result ≡ root_shift self.now }
        ensures low { pos 0 ≤ℤ result }
        ensures high { result ≤ℤ MAX_SHIFT }
    {
        root_shift(self)
    }

    /// The format of the root.
    pub fn root(&self) -> Format
        requires { IsAcceptedSingle self.now }
        ensures value { result ≡ root_format self.now }
        ensures some { 1 ≤ result.width }
        ensures few { result.width ≤ 48 }
    {
        root_format(self)
    }

    /// The format of the remainder.
    pub fn remainder(&self) -> Format
        requires { IsAcceptedSingle self.now }
        ensures { result ≡ rest_format self.now }
    {
        rest_format(self)
    }

    /// Whether the fields are within the ranges of their keys.
    pub fn is_ranged(&self) -> bool
        ensures { IsTrue result ↔ IsSingle self.now }
    {
        is_input(self.input)
            && !self.input.signed
            && is_near(self.input.lsb)
            && is_near(self.out_lsb)
    }

    /// What is said of the operator by numbers and marks alone.
    pub fn profile(&self) -> Profile
        ensures { IsProfileOf (single_meaning self.now) (single_acceptance self.now) result }
    {
        Profile {
            least_shift: 0,
            first_most_shift: MAX_SHIFT,
            most_shift: MAX_SHIFT,
            divisor: None,
            has_value: false,
            has_graph: false,
            own_mark: Some(mode_of_exact(self.exact)),
        }
    }

    /// The input ports, in order.
    pub fn inputs(&self, alloc: Global) -> Result<Vec<PortFormat>, AllocError>
        ensures { IfOk result (λ ports. ports.items ≡ one_input self.now.input) }
    {
        one(alloc, "x", self.input)
    }

    /// The output ports, in order.
    pub fn outputs(&self, alloc: Global) -> Result<Vec<PortFormat>, AllocError>
        requires { IsAcceptedSingle self.now }
        ensures { IfOk result (λ ports. ports.items ≡ root_ports self.now.exact self.now) }
    {
        with_rest(alloc, self.exact, "y", self.root(), self.remainder())
    }

    /// Whether the outputs of the last cycle are good, or its inputs out of range.
    pub fn judge(&self, history: &[u128], outputs: &[u128]) -> bool
        requires accepted { IsAcceptedSingle self.now }
        requires history { IsHistory (one_input self.now.input) history.now }
        requires outputs { IsCycle (root_ports self.now.exact self.now) outputs.now }
        ensures { IsCycleJudged (single_meaning self.now) (mode_of_exact self.now.exact) history.now outputs.now result }
    {
        let x = recent(self.input, history, 0);
        root_is_good(self.exact, self, x, outputs)
    }
}

pub fn root_shift(single: &Single) -> i32
    requires { IsSingle single.now }
    ensures { result ≡ root_shift single.now }
{
    single.input.lsb - 2 * single.out_lsb
}

fn root_width(single: &Single) -> u32
    requires { IsSingle single.now }
    ensures value { result ≡ root_width single.now }
    ensures bound { result ≤ 200 }
{
    (single.input.width + places_up(root_shift(single))).div_ceil(2)
}

fn root_format(single: &Single) -> Format
    requires { IsSingle single.now }
    ensures { result ≡ root_format single.now }
{
    unsigned(root_width(single), single.out_lsb)
}

fn rest_format(single: &Single) -> Format
    requires { IsSingle single.now }
    ensures { result ≡ rest_format single.now }
{
    unsigned(root_width(single) + 1, 2 * single.out_lsb)
}

fn root_is_good(exact: bool, single: &Single, x: i128, outputs: &[u128]) -> bool
    requires single { IsSingle single.now }
    requires low { pos 0 ≤ℤ root_shift single.now }
    requires high { root_shift single.now ≤ℤ MAX_SHIFT }
    requires x { unsigned_abs x ≤ 2 ^ single.now.input.width }
    requires outputs { IsCycle (root_ports exact single.now) outputs.now }
    ensures { IsTrue result ↔ IsGoodSquareRoot exact single.now x
        (output_numbers (root_ports exact single.now) outputs.now 0)
        (output_numbers (root_ports exact single.now) outputs.now 1) }
{
    let square = raised(x, places_up(root_shift(single))).unsigned_abs();
    let y = output(root_format(single), outputs[0]).unsigned_abs();
    if exact {
        let r = output(rest_format(single), outputs[1]).unsigned_abs();
        is_root(square, y, r)
    } else {
        good_root(square, y)
    }
}
