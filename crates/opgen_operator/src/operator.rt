//! Operators: their kinds, and each question about them.
ghost use Rattle.std.specs.Prelude.{◌≡◌, ◌↔◌, ℤ, pos, neg_ℤ, ◌≤ℤ◌, ◌<ℤ◌, IfOk, IfSome, IsTrue};
ghost use Rattle.opgen_ports.specs.Meaning.{IsCycleJudged};
ghost use Rattle.opgen_ports.specs.Profile.{IsProfileOf};
ghost use Rattle.opgen_operator.specs.GivenNames.{AreGivenNames};
ghost use Rattle.opgen_operator.specs.Operator.{shift, given_names, HasRoom, operator_inputs, operator_outputs, IsOperator, inexact, need, least_shift, most_shift, kind, meaning, acceptance, divisor, has_graph, own_mark, IsAccepted, IsInVersion, HasInputsWithin, plain_output, exact_value, has_value, may_be_cut, IsInRangeOf};
ghost use Rattle.opgen_ports.specs.Ports.{recent_numbers, IsHistory, IsCycle};
ghost use Rattle.opgen_operator.specs.Valid.{IsModeOf};

use crate::given_names::are_given_names;
use crate::kind::Kind;
use opgen_kinds::pair::{Pair, pair_need, pair_shift};
use opgen_kinds::poly::Poly;
use opgen_kinds::product::{Product, product_inexact, product_need, product_shift};
use opgen_kinds::several::Several;
use opgen_kinds::single::{Single, root_shift};
use opgen_kinds::small_div::SmallDiv;
use opgen_kinds::sum::{Sum, first_inexact, sum_need, sum_shift};
use opgen_kinds::taps::Taps;
use opgen_num::{Format, MAX_TAPS, Mode, Ratio};
use opgen_ports::ports::{PortFormat, are_within, is_within};
use opgen_ports::{MAX_SHIFT, Profile};
use opgen_terms::Sop;
use std::alloc::{AllocError, Global};

/// An operator of one of the kinds.
#[derive(Drop)]
pub enum Operator {
    /// One input times a constant.
    Scale(Sum),
    /// A filter of finite response: the sum of the last inputs, each times a constant.
    Fir(Sum),
    Multiply(Product),
    Divide(Pair),
    /// The square root.
    Root(Single),
    /// One input times several constants, with an output for each.
    Mcm(Several),
    /// One input divided by a small constant.
    Constdiv(SmallDiv),
    /// A polynomial of one input.
    Poly(Poly),
    /// A filter of whole coefficients in transposed form.
    Tfir(Taps),
    /// A sum of constants times inputs and of products of inputs.
    Sop(Sop),
}

impl Operator {
    /// The kind of the operator.
    pub fn kind(&self) -> Kind
        ensures { result ≡ kind self.now }
    {
        match self {
            Operator::Scale(_) => Kind::Scale,
            Operator::Fir(_) => Kind::Fir,
            Operator::Multiply(_) => Kind::Multiply,
            Operator::Divide(_) => Kind::Divide,
            Operator::Root(_) => Kind::Root,
            Operator::Mcm(_) => Kind::Mcm,
            Operator::Constdiv(_) => Kind::Constdiv,
            Operator::Poly(_) => Kind::Poly,
            Operator::Tfir(_) => Kind::Tfir,
            Operator::Sop(_) => Kind::Sop,
        }
    }

    /// The power of two that brings the exact value into units of the output's last place.
    pub fn shift(&self) -> i32
        requires { IsOperator self.now }
        ensures { result ≡ shift self.now }
    {
        match self {
            Self::Scale(sum) => sum_shift(sum),
            Self::Fir(sum) => sum_shift(sum),
            Self::Multiply(product) => product_shift(product),
            Self::Divide(pair) => pair_shift(pair),
            Self::Root(single) => root_shift(single),
            Self::Tfir(taps) => taps.shift(),
            Self::Sop(sop) => sop.shift(),
            Self::Mcm(_) | Self::Constdiv(_) | Self::Poly(_) => 0,
        }
    }

    /// The place of the first coefficient that is not a whole number of units of the output's last
    /// place, or 0 of a product that is not one for every input. Of a polynomial always 0.
    pub fn inexact(&self) -> Option<u32>
        requires { IsOperator self.now }
        ensures { result ≡ inexact self.now }
    {
        match self {
            Self::Scale(sum) => first_inexact(sum),
            Self::Fir(sum) => first_inexact(sum),
            Self::Multiply(product) => product_inexact(product),
            Self::Poly(_) => Some(0),
            Self::Tfir(taps) => taps.inexact(),
            Self::Sop(sop) => sop.inexact(),
            Self::Divide(_) | Self::Root(_) | Self::Mcm(_) | Self::Constdiv(_) => None,
        }
    }

    /// The bits of the widest signal, of the kinds where it may be wider than a signal can be.
    pub fn need(&self) -> Option<u32>
        requires op { IsOperator self.now }
        requires low { neg_ℤ MAX_SHIFT ≤ℤ shift self.now }
        requires high { shift self.now ≤ℤ MAX_SHIFT }
        requires room { HasRoom self.now }
        ensures { result ≡ need self.now }
    {
        match self {
            Self::Scale(sum) => Some(sum_need(sum)),
            Self::Fir(sum) => Some(sum_need(sum)),
            Self::Multiply(product) => Some(product_need(product)),
            Self::Divide(pair) => Some(pair_need(pair)),
            Self::Sop(sop) => Some(sop.need()),
            Self::Root(_) | Self::Mcm(_) | Self::Constdiv(_) | Self::Poly(_) | Self::Tfir(_) =>
                None,
        }
    }

    // What is said of the operator by numbers and marks alone.
    fn profile(&self) -> Profile
        ensures { IsProfileOf (meaning self.now) (acceptance self.now) result }
    {
        match self {
            Self::Scale(sum) => sum.profile(),
            Self::Fir(sum) => sum.profile(),
            Self::Multiply(product) => product.profile(),
            Self::Divide(pair) => pair.profile(),
            Self::Root(single) => single.profile(),
            Self::Mcm(several) => several.profile(),
            Self::Constdiv(small) => small.profile(),
            Self::Poly(poly) => poly.profile(),
            Self::Tfir(taps) => taps.profile(),
            Self::Sop(sop) => sop.profile(),
        }
    }

    /// The least shift of an operator of this kind.
    pub fn least_shift(&self) -> i32
        ensures { result ≡ least_shift self.now }
    {
        self.profile().least_shift
    }

    /// The greatest shift of an operator of this kind in a version of specifications.
    pub fn most_shift(&self, version: u32) -> i32
        ensures { result ≡ most_shift version self.now }
    {
        self.profile().most_shift_in(version)
    }

    /// The place of the input port that must not be 0, if there is one.
    pub fn divisor(&self) -> Option<usize>
        ensures { result ≡ divisor self.now }
    {
        self.profile().divisor
    }

    /// Whether the net is made of an adder graph.
    pub fn has_graph(&self) -> bool
        ensures { result ≡ has_graph self.now }
    {
        self.profile().has_graph
    }

    /// Whether the operator has one output of one exact value.
    pub fn has_value(&self) -> bool
        ensures { result ≡ has_value self.now }
    {
        self.profile().has_value
    }

    /// Whether the output has a width that may be chosen: since version 3 that of the kinds with one output `y`.
    pub fn may_be_cut(&self) -> bool
        ensures { result ≡ may_be_cut self.now }
    {
        self.divisor().is_none() && self.has_value()
    }

    /// The operator's own mode of outputs, if it has one.
    pub(crate) fn own_mark(&self) -> Option<Mode>
        ensures { result ≡ own_mark self.now }
    {
        self.profile().own_mark
    }

    /// Whether the fields are within the ranges of their keys.
    pub(crate) fn is_ranged(&self) -> bool
        ensures { IsTrue result ↔ IsOperator self.now }
    {
        match self {
            Self::Scale(sum) => sum.is_ranged(1),
            Self::Fir(sum) => sum.is_ranged(MAX_TAPS as usize),
            Self::Multiply(product) => product.is_ranged(),
            Self::Divide(pair) => pair.is_ranged(),
            Self::Root(single) => single.is_ranged(),
            Self::Mcm(several) => several.is_ranged(),
            Self::Constdiv(small) => small.is_ranged(),
            Self::Poly(poly) => poly.is_ranged(),
            Self::Tfir(taps) => taps.is_ranged(),
            Self::Sop(sop) => sop.is_ranged(),
        }
    }

    /// Whether a version of specifications has the operator with these fields.
    pub(crate) fn is_in(&self, version: u32) -> bool
        ensures { IsTrue result ↔ IsInVersion version self.now }
    {
        match self {
            Self::Scale(sum) => sum.is_in(version),
            Self::Fir(sum) => sum.is_in(version),
            Self::Multiply(product) => product.is_in(version),
            Self::Divide(pair) => pair.is_in(version),
            Self::Root(_) => true,
            Self::Mcm(several) => several.is_in(version),
            Self::Constdiv(small) => small.is_in(version),
            Self::Poly(poly) => poly.is_in(version),
            Self::Tfir(taps) => taps.is_in(version),
            Self::Sop(sop) => sop.is_in(version),
        }
    }

    /// Whether the names that the document gives to the inputs are such names, for a specification of
    /// this name.
    pub(crate) fn is_named(&self, name: &str) -> bool
        ensures { IsTrue result ↔ AreGivenNames name.now (given_names self.now) }
    {
        match self {
            Self::Sop(sop) => are_given_names(name, sop.inputs.as_slice()),
            Self::Scale(_) | Self::Fir(_) | Self::Multiply(_) | Self::Divide(_) => true,
            Self::Root(_) | Self::Mcm(_) | Self::Constdiv(_) | Self::Poly(_) | Self::Tfir(_) =>
                true,
        }
    }

    /// Whether each input port has so many bits at most.
    pub(crate) fn has_inputs_within(&self, most: u32) -> bool
        ensures { IsTrue result ↔ HasInputsWithin most self.now }
    {
        match self {
            Self::Scale(sum) => is_within(most, sum.input),
            Self::Fir(sum) => is_within(most, sum.input),
            Self::Multiply(product) => are_within(most, product.a, product.b),
            Self::Divide(pair) => are_within(most, pair.a, pair.b),
            Self::Root(single) => is_within(most, single.input),
            Self::Mcm(several) => is_within(most, several.input),
            Self::Constdiv(small) => is_within(most, small.input),
            Self::Poly(poly) => is_within(most, poly.input),
            Self::Tfir(taps) => is_within(most, taps.input),
            Self::Sop(sop) => sop.has_inputs_within(most),
        }
    }

    /// The input ports, in order.
    pub(crate) fn inputs(&self, alloc: Global) -> Result<Vec<PortFormat>, AllocError>
        ensures { IfOk result (λ ports. ports.items ≡ operator_inputs self.now) }
    {
        match self {
            Self::Scale(sum) => sum.inputs(alloc),
            Self::Fir(sum) => sum.inputs(alloc),
            Self::Multiply(product) => product.inputs(alloc),
            Self::Divide(pair) => pair.inputs(alloc),
            Self::Root(single) => single.inputs(alloc),
            Self::Mcm(several) => several.inputs(alloc),
            Self::Constdiv(small) => small.inputs(alloc),
            Self::Poly(poly) => poly.inputs(alloc),
            Self::Tfir(taps) => taps.inputs(alloc),
            Self::Sop(sop) => sop.inputs(alloc),
        }
    }

    /// The output ports, in order. A remainder comes last.
    pub(crate) fn outputs(&self, alloc: Global) -> Result<Vec<PortFormat>, AllocError>
        requires { IsAccepted self.now }
        ensures { IfOk result (λ ports. ports.items ≡ operator_outputs self.now) }
    {
        match self {
            Self::Scale(sum) => sum.outputs(alloc),
            Self::Fir(sum) => sum.outputs(alloc),
            Self::Multiply(product) => product.outputs(alloc),
            Self::Divide(pair) => pair.outputs(alloc),
            Self::Root(single) => single.outputs(alloc),
            Self::Mcm(several) => several.outputs(alloc),
            Self::Constdiv(small) => small.outputs(alloc),
            Self::Poly(poly) => poly.outputs(alloc),
            Self::Tfir(taps) => taps.outputs(alloc),
            Self::Sop(sop) => sop.outputs(alloc),
        }
    }

    /// The format of the output `y`, of the kinds with one output whose width may be chosen.
    pub(crate) fn plain_output(&self) -> Option<Format>
        requires { IsAccepted self.now }
        ensures { result ≡ plain_output self.now }
    {
        match self {
            Self::Scale(sum) => Some(sum.output()),
            Self::Fir(sum) => Some(sum.output()),
            Self::Multiply(product) => Some(product.output()),
            Self::Poly(poly) => Some(poly.output()),
            Self::Tfir(taps) => Some(taps.output()),
            Self::Sop(sop) => Some(sop.output()),
            Self::Divide(_) | Self::Root(_) | Self::Mcm(_) | Self::Constdiv(_) => None,
        }
    }

    /// Whether the inputs of the last cycle are in range: a divisor is not 0.
    pub(crate) fn is_in_range(&self, history: &[u128]) -> bool
        requires accepted { IsAccepted self.now }
        requires history { IsHistory (operator_inputs self.now) history.now }
        ensures { IsTrue result ↔ IsInRangeOf self.now (recent_numbers (operator_inputs self.now) history.now) }
    {
        match self {
            Self::Divide(pair) => pair.is_in_range(history),
            Self::Scale(_) | Self::Fir(_) | Self::Multiply(_) | Self::Root(_) | Self::Mcm(_) =>
                true,
            Self::Constdiv(_) | Self::Poly(_) | Self::Tfir(_) | Self::Sop(_) => true,
        }
    }

    /// The exact value of the output, in units of its last place, if there is one output of one value.
    pub(crate) fn value(&self, history: &[u128]) -> Option<Ratio>
        requires accepted { IsAccepted self.now }
        requires history { IsHistory (operator_inputs self.now) history.now }
        ensures value { result ≡ exact_value self.now (recent_numbers (operator_inputs self.now) history.now) }
        ensures positive { IsInRangeOf self.now (recent_numbers (operator_inputs self.now) history.now) →
            IfSome result (λ value. pos 0 <ℤ value.den) }
    {
        match self {
            Self::Scale(sum) => Some(sum.value(history)),
            Self::Fir(sum) => Some(sum.value(history)),
            Self::Multiply(product) => Some(product.value(history)),
            Self::Poly(poly) => Some(poly.value(history)),
            Self::Tfir(taps) => Some(taps.value(history)),
            Self::Sop(sop) => Some(sop.value(history)),
            Self::Divide(pair) => pair.value(history),
            Self::Root(_) | Self::Mcm(_) | Self::Constdiv(_) => None,
        }
    }

    /// Whether the outputs of the last cycle are good, or its inputs out of range.
    pub(crate) fn judge(&self, mode: Mode, history: &[u128], outputs: &[u128]) -> bool
        requires accepted { IsAccepted self.now }
        requires mode { IsModeOf mode self.now }
        requires history { IsHistory (operator_inputs self.now) history.now }
        requires outputs { IsCycle (operator_outputs self.now) outputs.now }
        ensures { IsCycleJudged (meaning self.now) mode history.now outputs.now result }
    {
        match self {
            Self::Scale(sum) => sum.judge(mode, history, outputs),
            Self::Fir(sum) => sum.judge(mode, history, outputs),
            Self::Multiply(product) => product.judge(mode, history, outputs),
            Self::Divide(pair) => pair.judge(history, outputs),
            Self::Root(single) => single.judge(history, outputs),
            Self::Mcm(several) => several.judge(mode, history, outputs),
            Self::Constdiv(small) => small.judge(history, outputs),
            Self::Poly(poly) => poly.judge(mode, history, outputs),
            Self::Tfir(taps) => taps.judge(mode, history, outputs),
            Self::Sop(sop) => sop.judge(mode, history, outputs),
        }
    }
}
