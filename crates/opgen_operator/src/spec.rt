//! Specifications as types: operator, output, target, period and delay lines; their ports, and when outputs are good.
ghost use Rattle.std.specs.Prelude.{◌≡◌, ◌≤◌, ◌<◌, ◌^◌, Some, None, [], ◌∷◌, codes, length, IfOk, IfSome, ◌↔◌, All, IsTrue};
ghost use Rattle.opgen_num.specs.Formats.{IsWidthOf};
ghost use Rattle.opgen_operator.specs.GivenNames.{is_name_in, AreGivenNames};
ghost use Rattle.opgen_operator.specs.Operator.{operator_outputs, plain_output, exact_value, given_names, IsOperator};
ghost use Rattle.opgen_operator.specs.Outputs.{inputs_of, outputs_of, mode_of, IsGood, IsGoodCut, IsInRange};
ghost use Rattle.opgen_ports.specs.Ports.{format_at, port, number_of, recent_numbers, output_numbers, IsHistory, IsCycle};
ghost use Rattle.opgen_ports.specs.SpecName.{is_spec_name};
ghost use Rattle.opgen_operator.specs.Valid.{IsChoice, IsDelayLine, IsInexactIf, IsModeOf, IsOverflow, IsValidSpec};

use crate::given_names::is_name_in;
use crate::operator::Operator;
use opgen_list::{Items, Text};
use opgen_net::Class;
use opgen_num::{Format, MAX_WIDTH, Memory, Mode, Overflow, Rounding};
use opgen_ports::history::output;
use opgen_ports::modes::mode_by;
use opgen_ports::overflow::{good_saturated, good_wrapped};
use opgen_ports::ports::{PortFormat, one};
use opgen_ports::ranges::is_length;
use opgen_ports::{MAX_TARGET_NAME_LEN, is_spec_name, is_version};
use std::alloc::Global;

/// What is to be built: an operator, and for which target.
#[derive(Drop)]
pub struct Spec {
    pub version: u32,
    /// The name of the operator, which is that of its entity.
    pub name: Text,
    pub op: Operator,
    /// Whether the outputs equal the exact values, quotients rounded towards 0 and roots down, with a
    /// remainder; if not, they lie less than one unit in the last place from them.
    pub exact: bool,
    /// How the outputs are rounded from the exact values, if it is said; they are then not exact.
    pub rounding: Option<Rounding>,
    /// The width of the output `y` in bits, if it is chosen.
    pub out_width: Option<u32>,
    /// Whether that output is signed, if it is chosen; if not, it has the sign of the operator's own.
    pub out_signed: Option<bool>,
    /// What becomes of a value that is out of the range of that output.
    pub overflow: Overflow,
    pub target: Text,
    /// The clock's period in picoseconds.
    pub period: u32,
    /// Changes of the target's table of delays, in order.
    pub delays: Items<DelayLine>,
}

/// The delay of a class of cells in picoseconds: a base, and so much for each bit.
#[derive(Clone, Copy, Debug, PartialEq, Eq)]
pub struct DelayLine {
    pub class: Class,
    pub base: u32,
    pub per_bit: u32,
}

/// The format of an output as its operator has it, and the one that is chosen.
#[derive(Clone, Copy, Debug, PartialEq, Eq)]
pub struct Cut {
    pub from: Format,
    pub to: Format,
}

impl DelayLine {
    // Whether the delays are within their ranges.
    fn is_ranged(self) -> bool
        ensures { IsTrue result ↔ IsDelayLine self }
    {
        self.base <= 1_000_000 && self.per_bit <= 10_000
    }
}

impl Spec {
    /// Whether the specification is valid, as the other methods require. Each one that is read from
    /// a document is; one whose fields were set by hand may not be.
    pub fn is_valid(&self) -> bool
        ensures { IsTrue result ↔ IsValidSpec self.now }
    {
        is_version(self.version)
            && self.has_names()
            && self.op.is_of(self.version)
            && self.has_outputs()
            && self.has_target()
    }

    // Whether such outputs may be asked of the operator.
    fn has_outputs(&self) -> bool
        requires { IsOperator self.now.op }
        ensures { IsTrue result ↔ (IsInexactIf self.now.rounding self.now.exact × IsModeOf (mode_of self.now) self.now.op
            × IsChoice self.now.version self.now.op self.now.out_width self.now.out_signed
            × IsOverflow self.now.version self.now.out_width self.now.overflow) }
    {
        is_inexact_if(self.rounding, self.exact)
            && self.op.has_mode(self.mode())
            && self.is_choice()
            && self.may_overflow_so()
    }

    // Whether the target, the period and the delays are within their ranges.
    fn has_target(&self) -> bool
        ensures { IsTrue result ↔ (((1 ≤ length self.now.target) × (length self.now.target ≤ MAX_TARGET_NAME_LEN))
            × ((1 ≤ self.now.period) × (self.now.period ≤ 1000000))
            × (length self.now.delays ≤ 16) × All IsDelayLine self.now.delays) }
    {
        is_length(1, MAX_TARGET_NAME_LEN, self.target.as_str().len())
            && is_period(self.period)
            && self.delays.len() <= 16
            && are_delay_lines(self.delays.as_slice())
    }

    /// The mode of the outputs: how they are rounded.
    pub fn mode(&self) -> Mode
        ensures { result ≡ mode_of self.now }
    {
        mode_by(self.rounding, self.exact)
    }

    // Whether the specification and its inputs may have their names.
    fn has_names(&self) -> bool
        ensures { IsTrue result ↔ (IsTrue (is_spec_name self.now.name)
            × IsTrue (is_name_in self.now.version self.now.name)
            × AreGivenNames self.now.name (given_names self.now.op)) }
    {
        let name = self.name.as_str();
        is_spec_name(name) && is_name_in(self.version, name) && self.op.is_named(name)
    }

    // Whether the width and the sign of the output may be chosen so.
    fn is_choice(&self) -> bool
        ensures { IsTrue result ↔ IsChoice self.now.version self.now.op self.now.out_width self.now.out_signed }
    {
        match self.out_width {
            Some(width) => {
                self.version >= 3 && self.op.may_be_cut() && 2 <= width && width <= MAX_WIDTH
            }
            None => self.out_signed.is_none(),
        }
    }

    // Whether this may become of values out of range.
    fn may_overflow_so(&self) -> bool
        ensures { IsTrue result ↔ IsOverflow self.now.version self.now.out_width self.now.overflow }
    {
        match self.overflow {
            Overflow::Saturate => true,
            Overflow::Wrap => self.version >= 4 && self.out_width.is_some(),
        }
    }

    /// The format of the output `y` whose width is chosen, and that of the operator's own.
    pub fn cut(&self) -> Option<Cut>
        requires { IsValidSpec self.now }
        ensures none { result ≡ None ↔ self.now.out_width ≡ None }
        ensures from { IfSome result (λ cut. plain_output self.now.op ≡ Some cut.from) }
        ensures to { IfSome result (λ cut. outputs_of self.now ≡ port (codes "y") cut.to ∷ []) }
        ensures widths { IfSome result (λ cut. IsWidthOf cut.from.signed cut.from.width × IsWidthOf cut.to.signed cut.to.width) }
    {
        let width = self.out_width?;
        let from = self.op.plain_output()?;
        let to = Format {
            signed: self.out_signed.unwrap_or(from.signed),
            width,
            lsb: from.lsb,
        };
        Some(Cut { from, to })
    }

    /// The input ports, in order.
    pub fn inputs(&self, alloc: Global) -> Result<Vec<PortFormat>, Memory>
        requires { IsValidSpec self.now }
        ensures { IfOk result (λ ports. ports.items ≡ inputs_of self.now) }
    {
        Ok(self.op.inputs(alloc)?)
    }

    /// The output ports, in order. A remainder comes last.
    pub fn outputs(&self, alloc: Global) -> Result<Vec<PortFormat>, Memory>
        requires { IsValidSpec self.now }
        ensures { IfOk result (λ ports. ports.items ≡ outputs_of self.now) }
    {
        match self.cut() {
            Some(cut) => Ok(one(alloc, "y", cut.to)?),
            None => Ok(self.op.outputs(alloc)?),
        }
    }

    /// Whether the outputs of a cycle are good, or its inputs are out of range.
    ///
    /// `history` has the words of all input ports in cycle 0, then those of the cycle after, and so
    /// on up to the cycle that is judged; `outputs` has the words of that cycle's output ports.
    pub fn good(&self, history: &[u128], outputs: &[u128]) -> bool
        requires valid { IsValidSpec self.now }
        requires history { IsHistory (inputs_of self.now) history.now }
        requires outputs { IsCycle (outputs_of self.now) outputs.now }
        ensures in_range { IsInRange self.now (recent_numbers (inputs_of self.now) history.now) →
            (IsTrue result ↔ IsGood self.now (recent_numbers (inputs_of self.now) history.now)
            (output_numbers (outputs_of self.now) outputs.now)) }
        ensures out_of_range { ¬ IsInRange self.now (recent_numbers (inputs_of self.now) history.now) → IsTrue result }
    {
        match self.cut() {
            Some(cut) => {
                !self.op.is_in_range(history) || self.is_good_cut(cut, history, outputs[0])
            }
            None => self.op.judge(self.mode(), history, outputs),
        }
    }

    // Whether an output of a chosen format is good for the exact value, which may be out of its range.
    fn is_good_cut(&self, cut: Cut, history: &[u128], y: u128) -> bool
        requires valid { IsValidSpec self.now }
        requires from { cut.from ≡ format_at (operator_outputs self.now.op) 0 }
        requires widths { IsWidthOf cut.from.signed cut.from.width × IsWidthOf cut.to.signed cut.to.width }
        requires history { IsHistory (inputs_of self.now) history.now }
        requires in_range { IsInRange self.now (recent_numbers (inputs_of self.now) history.now) }
        requires y { y < 2 ^ cut.to.width }
        ensures { IsTrue result ↔ IsGoodCut self.now.overflow (mode_of self.now)
            (format_at (operator_outputs self.now.op) 0) cut.to
            (exact_value self.now.op (recent_numbers (inputs_of self.now) history.now)) (number_of cut.to y) }
    {
        let Some(value) = self.op.value(history) else {
            return false;
        };
        let y = output(cut.to, y);
        match self.overflow {
            Overflow::Saturate => good_saturated(value, cut.to, y, self.mode()),
            Overflow::Wrap => good_wrapped(value, cut.from, cut.to, y, self.mode()),
        }
    }
}

// Whether exact outputs are not asked for where a rounding is chosen.
fn is_inexact_if(rounding: Option<Rounding>, exact: bool) -> bool
    ensures { IsTrue result ↔ IsInexactIf rounding exact }
{
    match rounding {
        Some(_) => !exact,
        None => true,
    }
}

fn is_period(period: u32) -> bool
    ensures { IsTrue result ↔ ((1 ≤ period) × (period ≤ 1000000)) }
{
    1 <= period && period <= 1_000_000
}

fn are_delay_lines(lines: &[DelayLine]) -> bool
    ensures { IsTrue result ↔ All IsDelayLine lines.now }
{
    'lines: for line in lines {
        if !line.is_ranged() {
            return false;
        }
    }
    true
}
