//! One input times several constants: what holds of the multiples.
ghost use Rattle.std.specs.Fmt.{decimal};
ghost use Rattle.std.specs.Prelude.{false, ◌≡◌, ◌≤◌, ◌^◌, ◌++◌, map, codes, IfOk, ◌<◌, pos, length, get_or, unsigned_abs, ◌↔◌, IsTrue};
ghost use Rattle.opgen_ports.specs.Good.{IsGoodRatio};
ghost use Rattle.opgen_ports.specs.Meaning.{IsCycleJudged};
ghost use Rattle.opgen_ports.specs.Profile.{IsProfileOf};
ghost use Rattle.opgen_kinds.specs.Several.{constant_format, numbered, IsSeveral, IsBuiltSeveral, IsSearchedFor, IsAcceptedSeveral, exact_multiple, AreGoodMultiples, multiple_ports, several_meaning, several_acceptance};
ghost use Rattle.opgen_ports.specs.Ports.{number_of, output_numbers, IsHistory, IsCycle, port, one_input};
ghost use Rattle.opgen_ports.specs.Ranges.{IsInput, IsWithin};

use opgen_list::{Items, Text};
use opgen_num::{Format, MAX_CONSTANT, MAX_INPUT, MAX_SEARCHED_CONSTANT, Mode, good_linear};
use opgen_ports::history::{output, product, recent};
use opgen_ports::modes::is_exact_or_faithful;
use opgen_ports::ports::{PortFormat, covering, one};
use opgen_ports::ranges::{are_near, are_within, is_input, is_length};
use opgen_ports::reach::reach_over;
use opgen_ports::{Profile, Recipe};
use std::alloc::{AllocError, Global};

#[derive(Drop)]
pub struct Several {
    pub input: Format,
    pub constants: Items<i64>,
    /// Whether the adder graph is the least one, which is searched for; if not, it is that of a fixed
    /// rule.
    pub searched: bool,
    /// How many odd numbers beside those of the constants a graph that is searched for may make.
    pub extra: u32,
    pub recipe: Recipe,
}

impl Several {
    /// The format of the output of the constant at a place.
    pub fn output(&self, place: usize) -> Format
        requires several { IsAcceptedSeveral self.now }
        requires place { place < length self.now.constants }
        ensures value { result ≡ constant_format self.now.input (get_or self.now.constants place (pos 0)) }
        ensures some { 1 ≤ result.width }
        ensures few { result.width ≤ 69 }
    {
        constant_format(self.input, self.constants.as_slice()[place])
    }

    /// Whether the fields are within the ranges of their keys.
    pub fn is_ranged(&self) -> bool
        ensures { IsTrue result ↔ IsSeveral self.now }
    {
        is_input(self.input)
            && is_length(1, 8, self.constants.len())
            && are_within(MAX_CONSTANT, self.constants.as_slice())
            && self.has_limits()
            && self.is_built()
    }

    // Whether a net of several constants with these fields is built yet.
    fn is_built(&self) -> bool
        ensures { IsTrue result ↔ IsBuiltSeveral self.now }
    {
        self.recipe.is_third()
    }

    // Whether the search takes the constants, or there is none.
    fn has_limits(&self) -> bool
        ensures { IsTrue result ↔ ((IsTrue self.now.searched → IsSearchedFor self.now) × (self.now.searched ≡ false → self.now.extra ≡ 0)) }
    {
        if self.searched {
            self.is_searched_for()
        } else {
            self.extra == 0
        }
    }

    // Whether the search takes the constants.
    fn is_searched_for(&self) -> bool
        ensures { IsTrue result ↔ IsSearchedFor self.now }
    {
        are_within(MAX_SEARCHED_CONSTANT, self.constants.as_slice()) && self.extra <= 2
    }

    /// Whether a version of specifications has the operator with these fields.
    pub fn is_in(&self, version: u32) -> bool
        ensures { IsTrue result ↔ (several_acceptance self.now).IsIn version }
    {
        are_near(version, &[self.input.lsb]) && (version >= 3 || self.searched)
    }

    /// What is said of the operator by numbers and marks alone.
    pub fn profile(&self) -> Profile
        ensures { IsProfileOf (several_meaning self.now) (several_acceptance self.now) result }
    {
        Profile {
            least_shift: 0,
            first_most_shift: 0,
            most_shift: 0,
            divisor: None,
            has_value: false,
            has_graph: true,
            own_mark: None,
        }
    }

    /// The input ports, in order.
    pub fn inputs(&self, alloc: Global) -> Result<Vec<PortFormat>, AllocError>
        ensures { IfOk result (λ ports. ports.items ≡ one_input self.now.input) }
    {
        one(alloc, "x", self.input)
    }

    /// The output ports, in order.
    pub fn outputs(&self, alloc: Global) -> Result<Vec<PortFormat>, AllocError>
        requires { IsAcceptedSeveral self.now }
        ensures { IfOk result (λ ports. ports.items ≡ multiple_ports self.now) }
    {
        constants(alloc, self)
    }

    /// Whether the outputs of the last cycle are good, or its inputs out of range.
    pub fn judge(&self, mode: Mode, history: &[u128], outputs: &[u128]) -> bool
        requires accepted { IsAcceptedSeveral self.now }
        requires history { IsHistory (one_input self.now.input) history.now }
        requires outputs { IsCycle (multiple_ports self.now) outputs.now }
        ensures { IsCycleJudged (several_meaning self.now) mode history.now outputs.now result }
    {
        let x = recent(self.input, history, 0);
        is_exact_or_faithful(mode) && multiples_are_good(mode, self, x, outputs)
    }
}

fn constant_format(input: Format, constant: i64) -> Format
    requires input { IsInput input }
    requires constant { IsWithin MAX_CONSTANT constant }
    ensures { result ≡ constant_format input constant }
{
    covering(reach_over(input, &[constant]), input.lsb)
}

fn numbered(alloc: Global, number: u32, format: Format) -> Result<PortFormat, AllocError>
    ensures { IfOk result (λ made. made ≡ port (codes "y" ++ decimal number) format) }
{
    let name = format!(in alloc; "y{number}")?;
    Ok(PortFormat {
        name: Text::from_string(name),
        format,
    })
}

fn constants(alloc: Global, several: &Several) -> Result<Vec<PortFormat>, AllocError>
    requires { IsSeveral several.now }
    ensures { IfOk result (λ ports. ports.items ≡ numbered 0 (map (constant_format several.now.input) several.now.constants)) }
{
    let mut ports = Vec::new(alloc);
    let mut number = 0;
    'constants: for constant in several.constants.as_slice() {
        ports.push(numbered(alloc, number, constant_format(several.input, *constant))?)?;
        number += 1;
    }
    Ok(ports)
}

fn multiple_is_good(mode: Mode, input: Format, constant: i64, x: i128, y: u128) -> bool
    requires input { IsInput input }
    requires constant { IsWithin MAX_CONSTANT constant }
    requires x { unsigned_abs x ≤ 2 ^ MAX_INPUT }
    requires y { y < 2 ^ (constant_format input constant).width }
    ensures { IsTrue result ↔ IsGoodRatio mode (exact_multiple constant x)
        (number_of (constant_format input constant) y) }
{
    let y = output(constant_format(input, constant), y);
    good_linear(product(x, constant), 1, y, mode)
}

fn multiples_are_good(mode: Mode, several: &Several, x: i128, outputs: &[u128]) -> bool
    requires several { IsSeveral several.now }
    requires x { unsigned_abs x ≤ 2 ^ MAX_INPUT }
    requires outputs { IsCycle (multiple_ports several.now) outputs.now }
    ensures { IsTrue result ↔ AreGoodMultiples mode several.now.constants x
        (output_numbers (multiple_ports several.now) outputs.now) }
{
    let mut place = 0;
    'constants: for constant in several.constants.as_slice() {
        if !multiple_is_good(mode, several.input, *constant, x, outputs[place]) {
            return false;
        }
        place += 1;
    }
    true
}
