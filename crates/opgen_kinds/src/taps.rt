//! Filters of whole coefficients in transposed form: what holds of them.
ghost use Rattle.std.specs.Prelude.{false, ◌≡◌, ◌≤◌, ◌^◌, [], ◌∷◌, ℤ, neg_ℤ, ◌≤ℤ◌, ◌<ℤ◌, pos, codes, IfOk, ◌<◌, ◌↔◌, IsTrue};
ghost use Rattle.opgen_ports.specs.Good.{IsGoodRatio};
ghost use Rattle.opgen_ports.specs.Meaning.{IsCycleJudged};
ghost use Rattle.opgen_ports.specs.Profile.{IsProfileOf};
ghost use Rattle.opgen_kinds.specs.Sum.{sum_shift, first_inexact};
ghost use Rattle.opgen_kinds.specs.Taps.{direct, taps_format, IsTaps, IsBuiltTaps, AreSearchedFor, exact_taps, taps_meaning, taps_acceptance, IsAcceptedTaps};
ghost use Rattle.opgen_ports.specs.Ports.{number_of, recent_numbers, IsHistory, IsCycle, port, one_input};

use crate::sum::{first_inexact_of, weighted_value};
use opgen_list::Items;
use opgen_num::{
    Format, MAX_CONSTANT, MAX_SEARCHED_CONSTANT, MAX_SEARCHED_TAPS, MAX_TAPS, Mode, Ratio,
    good_linear,
};
use opgen_ports::history::output;
use opgen_ports::modes::is_faithful;
use opgen_ports::ports::{PortFormat, covering, one};
use opgen_ports::ranges::{are_near, are_within, is_input, is_length, is_power};
use opgen_ports::reach::{in_places, reach_over};
use opgen_ports::{MAX_SHIFT, Profile, Recipe, odd_part_count};
use std::alloc::{AllocError, Global};

/// The sum of the last inputs times `taps`.
#[derive(Drop)]
pub struct Taps {
    pub input: Format,
    pub out_lsb: i32,
    pub taps: Items<i64>,
    /// Whether the adder graph is the least one, which is searched for; if not, it is that of a fixed
    /// rule.
    pub searched: bool,
    /// How many odd numbers beside those of the taps a graph that is searched for may make.
    pub extra: u32,
    /// How the output is rounded from its exact value, where the net depends on it; if not, faithful.
    pub mode: Mode,
    pub recipe: Recipe,
}

impl Taps {
    /// The power of two that brings the exact value into units of the output's last place.
    pub fn shift(&self) -> i32
        requires { IsTaps self.now }
        ensures { result ≡ sum_shift (direct self.now) }
    {
        self.input.lsb - self.out_lsb
    }

    /// The place of the first tap that is not a whole number of units of the output's last place.
    pub fn inexact(&self) -> Option<u32>
        requires { IsTaps self.now }
        ensures { result ≡ first_inexact (direct self.now) }
    {
        first_inexact_of(self.taps.as_slice(), 1, self.shift())
    }

    /// The format of the output.
    pub fn output(&self) -> Format
        requires { IsAcceptedTaps self.now }
        ensures value { result ≡ taps_format self.now }
        ensures some { 1 ≤ result.width }
        ensures few { result.width ≤ 77 }
    {
        let reach = reach_over(self.input, self.taps.as_slice());
        covering(in_places(reach, self.shift(), 1), self.out_lsb)
    }

    /// Whether the fields are within the ranges of their keys.
    pub fn is_ranged(&self) -> bool
        ensures { IsTrue result ↔ IsTaps self.now }
    {
        is_input(self.input)
            && is_power(self.out_lsb)
            && is_length(1, MAX_TAPS as usize, self.taps.len())
            && are_within(MAX_CONSTANT, self.taps.as_slice())
            && self.has_limits()
            && self.is_built()
    }

    // Whether a net of a filter with these fields is built yet.
    fn is_built(&self) -> bool
        ensures { IsTrue result ↔ IsBuiltTaps self.now }
    {
        is_faithful(self.mode) && self.recipe.is_third()
    }

    // Whether the search takes the taps, or there is none.
    fn has_limits(&self) -> bool
        ensures { IsTrue result ↔ ((IsTrue self.now.searched → AreSearchedFor self.now) × (self.now.searched ≡ false → self.now.extra ≡ 0)) }
    {
        if self.searched {
            self.are_searched_for()
        } else {
            self.extra == 0
        }
    }

    // Whether the search takes the taps.
    fn are_searched_for(&self) -> bool
        ensures { IsTrue result ↔ AreSearchedFor self.now }
    {
        self.taps.len() <= MAX_SEARCHED_TAPS as usize
            && are_within(MAX_SEARCHED_CONSTANT, self.taps.as_slice())
            && odd_part_count(self.taps.as_slice()) <= 8
            && self.extra <= 2
    }

    /// Whether a version of specifications has the operator with these fields.
    pub fn is_in(&self, version: u32) -> bool
        ensures { IsTrue result ↔ (taps_acceptance self.now).IsIn version }
    {
        version != 1
            && are_near(version, &[self.input.lsb])
            && (version >= 3 || (self.out_lsb == self.input.lsb && self.searched))
    }

    /// What is said of the operator by numbers and marks alone.
    pub fn profile(&self) -> Profile
        ensures { IsProfileOf (taps_meaning self.now) (taps_acceptance self.now) result }
    {
        Profile {
            least_shift: -MAX_SHIFT,
            first_most_shift: 0,
            most_shift: 0,
            divisor: None,
            has_value: true,
            has_graph: true,
            own_mark: None,
        }
    }

    /// The input ports, in order.
    pub fn inputs(&self, alloc: Global) -> Result<Vec<PortFormat>, AllocError>
        ensures { IfOk result (λ ports. ports.items ≡ one_input self.now.input) }
    {
        one(alloc, "x", self.input)
    }

    /// The output ports, in order.
    pub fn outputs(&self, alloc: Global) -> Result<Vec<PortFormat>, AllocError>
        requires { IsAcceptedTaps self.now }
        ensures { IfOk result (λ ports. ports.items ≡ port (codes "y") (taps_format self.now) ∷ []) }
    {
        one(alloc, "y", self.output())
    }

    /// The exact value of the output in units of its last place.
    ///
    /// `history` has the words of all input ports, cycle by cycle, up to the cycle that is judged.
    pub fn value(&self, history: &[u128]) -> Ratio
        requires accepted { IsAcceptedTaps self.now }
        requires history { IsHistory (one_input self.now.input) history.now }
        ensures value { result ≡ exact_taps self.now (recent_numbers (one_input self.now.input) history.now 0) }
        ensures positive { pos 0 <ℤ result.den }
    {
        weighted_value(self.input, self.taps.as_slice(), 1, self.shift(), history)
    }

    /// Whether the outputs of the last cycle are good, or its inputs out of range.
    pub fn judge(&self, mode: Mode, history: &[u128], outputs: &[u128]) -> bool
        requires accepted { IsAcceptedTaps self.now }
        requires history { IsHistory (one_input self.now.input) history.now }
        requires outputs { IsCycle (port (codes "y") (taps_format self.now) ∷ []) outputs.now }
        ensures { IsCycleJudged (taps_meaning self.now) mode history.now outputs.now result }
    {
        let value = self.value(history);
        good_linear(
            value.num,
            value.den,
            output(self.output(), outputs[0]),
            mode,
        )
    }
}
