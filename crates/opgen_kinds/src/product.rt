//! Products of two inputs: what holds of them.
ghost use Rattle.std.specs.Prelude.{◌≡◌, ◌+◌, ◌≤◌, ◌^◌, [], ◌∷◌, ℤ, neg_ℤ, ◌≤ℤ◌, codes, IfOk, ◌<◌, pos, negsuc, ◌<ℤ◌, ◌↔◌, IsTrue};
ghost use Rattle.opgen_ports.specs.Good.{IsGoodRatio};
ghost use Rattle.opgen_ports.specs.Meaning.{IsCycleJudged};
ghost use Rattle.opgen_ports.specs.Profile.{IsProfileOf};
ghost use Rattle.opgen_kinds.specs.Product.{product_shift, product_format, IsProduct, IsBuiltProduct, IsAcceptedProduct, product_reach, product_places, product_need, exact_product, product_meaning, product_acceptance};
ghost use Rattle.opgen_ports.specs.Ports.{number_of, recent_numbers, IsHistory, IsCycle, port, two_inputs};
ghost use Rattle.opgen_ports.specs.Reaches.{width_of};
ghost use Rattle.opgen_ports.specs.Spans.{IsOf};

use opgen_num::{Format, MAX_WIDTH, Mode, Ratio, good_linear};
use opgen_ports::history::{last_two, output};
use opgen_ports::modes::is_faithful;
use opgen_ports::ports::{PortFormat, one, operands};
use opgen_ports::ranges::{are_near, is_input, is_power};
use opgen_ports::reach::{Reach, in_places, reach_of_product, width_of};
use opgen_ports::shifts::{places_down, places_up, raised};
use opgen_ports::{Compressor, MAX_SHIFT, Profile, Recipe};
use std::alloc::{AllocError, Global};

#[derive(Clone, Copy, Debug, PartialEq, Eq)]
pub struct Product {
    pub a: Format,
    pub b: Format,
    pub out_lsb: i32,
    /// How what is added up is brought to one word.
    pub compressor: Compressor,
    /// How the output is rounded from its exact value, where the net depends on it; if not, faithful.
    pub mode: Mode,
    pub recipe: Recipe,
}

impl Product {
    /// The power of two that brings the exact value into units of the output's last place.
    pub fn shift(&self) -> i32
        requires { IsAcceptedProduct self.now }
        ensures value { result ≡ product_shift self.now }
        ensures low { neg_ℤ MAX_SHIFT ≤ℤ result }
        ensures high { result ≤ℤ MAX_SHIFT }
    {
        product_shift(self)
    }

    /// The format of the output.
    pub fn output(&self) -> Format
        requires { IsAcceptedProduct self.now }
        ensures value { result ≡ product_format self.now }
        ensures some { 1 ≤ result.width }
        ensures few { result.width ≤ MAX_WIDTH }
    {
        product_format(self)
    }

    /// Whether the fields are within the ranges of their keys.
    pub fn is_ranged(&self) -> bool
        ensures { IsTrue result ↔ IsProduct self.now }
    {
        is_input(self.a)
            && is_input(self.b)
            && self.a.signed == self.b.signed
            && is_power(self.out_lsb)
            && self.is_built()
    }

    // Whether a net of a product with these fields is built yet.
    fn is_built(&self) -> bool
        ensures { IsTrue result ↔ IsBuiltProduct self.now }
    {
        is_faithful(self.mode) && self.compressor.is_of_bits() && self.recipe.is_third()
    }

    /// Whether a version of specifications has the operator with these fields.
    pub fn is_in(&self, version: u32) -> bool
        ensures { IsTrue result ↔ (product_acceptance self.now).IsIn version }
    {
        (version != 1 || !self.compressor.has_counters())
            && are_near(version, &[self.a.lsb, self.b.lsb, self.out_lsb])
    }

    /// What is said of the operator by numbers and marks alone.
    pub fn profile(&self) -> Profile
        ensures { IsProfileOf (product_meaning self.now) (product_acceptance self.now) result }
    {
        Profile {
            least_shift: -MAX_SHIFT,
            first_most_shift: MAX_SHIFT,
            most_shift: MAX_SHIFT,
            divisor: None,
            has_value: true,
            has_graph: false,
            own_mark: None,
        }
    }

    /// The input ports, in order.
    pub fn inputs(&self, alloc: Global) -> Result<Vec<PortFormat>, AllocError>
        ensures { IfOk result (λ ports. ports.items ≡ two_inputs self.now.a self.now.b) }
    {
        operands(alloc, self.a, self.b)
    }

    /// The output ports, in order.
    pub fn outputs(&self, alloc: Global) -> Result<Vec<PortFormat>, AllocError>
        requires { IsAcceptedProduct self.now }
        ensures { IfOk result (λ ports. ports.items ≡ port (codes "y") (product_format self.now) ∷ []) }
    {
        one(alloc, "y", self.output())
    }

    /// The exact value of the output in units of its last place.
    ///
    /// `history` has the words of all input ports, cycle by cycle, up to the cycle that is judged.
    pub fn value(&self, history: &[u128]) -> Ratio
        requires accepted { IsAcceptedProduct self.now }
        requires history { IsHistory (two_inputs self.now.a self.now.b) history.now }
        ensures value { result ≡ exact_product self.now
            (recent_numbers (two_inputs self.now.a self.now.b) history.now 0 0)
            (recent_numbers (two_inputs self.now.a self.now.b) history.now 1 0) }
        ensures positive { pos 0 <ℤ result.den }
    {
        let (a, b) = last_two(self.a, self.b, history);
        exact_product(self, a, b)
    }

    /// Whether the outputs of the last cycle are good, or its inputs out of range.
    pub fn judge(&self, mode: Mode, history: &[u128], outputs: &[u128]) -> bool
        requires accepted { IsAcceptedProduct self.now }
        requires history { IsHistory (two_inputs self.now.a self.now.b) history.now }
        requires outputs { IsCycle (port (codes "y") (product_format self.now) ∷ []) outputs.now }
        ensures { IsCycleJudged (product_meaning self.now) mode history.now outputs.now result }
    {
        let (a, b) = last_two(self.a, self.b, history);
        product_is_good(mode, self, a, b, outputs[0])
    }
}

pub fn product_shift(product: &Product) -> i32
    requires { IsProduct product.now }
    ensures value { result ≡ product_shift product.now }
    ensures low { negsuc 191 ≤ℤ result }
    ensures high { result ≤ℤ pos 192 }
{
    product.a.lsb + product.b.lsb - product.out_lsb
}

/// 0 where the product is not whole for every input.
pub fn product_inexact(product: &Product) -> Option<u32>
    requires { IsProduct product.now }
    ensures { result ≡ (product_acceptance product.now).inexact }
{
    if product_shift(product) < 0 {
        Some(0)
    } else {
        None
    }
}

// How far a product goes.
fn product_reach(product: &Product) -> Reach
    requires { IsProduct product.now }
    ensures value { result ≡ product_reach product.now }
    ensures below { result.below ≤ 2 ^ (product.now.a.width + product.now.b.width) }
    ensures above { result.above ≤ 2 ^ (product.now.a.width + product.now.b.width) }
{
    reach_of_product(product.a, product.b)
}

// How far a product goes in units of the output's last place, where it is not shifted up.
fn product_places(product: &Product) -> Reach
    requires product { IsProduct product.now }
    requires low { neg_ℤ MAX_SHIFT ≤ℤ product_shift product.now }
    requires high { product_shift product.now ≤ℤ pos 0 }
    ensures value { result ≡ product_places product.now }
    ensures below { result.below ≤ 2 ^ 120 }
    ensures above { result.above ≤ 2 ^ 120 }
{
    in_places(product_reach(product), product_shift(product), 1)
}

// The width of the output of a product.
//
// Shifted up, its range may have no place in 128 bits; the plain product's has one.
fn product_width(product: &Product) -> u32
    requires product { IsProduct product.now }
    requires low { neg_ℤ MAX_SHIFT ≤ℤ product_shift product.now }
    requires high { product_shift product.now ≤ℤ MAX_SHIFT }
    ensures value { result ≡ width_of (product_places product.now) }
    ensures bound { result ≤ 200 }
{
    let shift = product_shift(product);
    if shift > 0 {
        width_of(product_reach(product)) + places_up(shift)
    } else {
        width_of(product_places(product))
    }
}

/// The width of the widest signal of a product.
pub fn product_need(product: &Product) -> u32
    requires product { IsProduct product.now }
    requires low { neg_ℤ MAX_SHIFT ≤ℤ product_shift product.now }
    requires high { product_shift product.now ≤ℤ MAX_SHIFT }
    ensures { result ≡ product_need product.now }
{
    product_width(product) + places_down(product_shift(product))
}

fn product_format(product: &Product) -> Format
    requires product { IsProduct product.now }
    requires low { neg_ℤ MAX_SHIFT ≤ℤ product_shift product.now }
    requires high { product_shift product.now ≤ℤ MAX_SHIFT }
    ensures { result ≡ product_format product.now }
{
    Format {
        signed: 0 < product_reach(product).below,
        width: product_width(product),
        lsb: product.out_lsb,
    }
}

// The exact value in units of the output's last place.
fn exact_product(product: &Product, a: i128, b: i128) -> Ratio
    requires product { IsProduct product.now }
    requires low { neg_ℤ MAX_SHIFT ≤ℤ product_shift product.now }
    requires high { product_shift product.now ≤ℤ MAX_SHIFT }
    requires narrow { (product_format product.now).width ≤ MAX_WIDTH }
    requires a { IsOf product.now.a a }
    requires b { IsOf product.now.b b }
    ensures value { result ≡ exact_product product.now a b }
    ensures positive { pos 0 <ℤ result.den }
{
    let shift = product_shift(product);
    let numerator = raised(a * b, places_up(shift));
    let denominator = raised(1, places_down(shift));
    Ratio {
        num: numerator,
        den: denominator,
    }
}

fn product_is_good(mode: Mode, product: &Product, a: i128, b: i128, y: u128) -> bool
    requires product { IsProduct product.now }
    requires low { neg_ℤ MAX_SHIFT ≤ℤ product_shift product.now }
    requires high { product_shift product.now ≤ℤ MAX_SHIFT }
    requires narrow { (product_format product.now).width ≤ MAX_WIDTH }
    requires a { IsOf product.now.a a }
    requires b { IsOf product.now.b b }
    requires y { y < 2 ^ (product_format product.now).width }
    ensures { IsTrue result ↔ IsGoodRatio mode (exact_product product.now a b)
        (number_of (product_format product.now) y) }
{
    let value = exact_product(product, a, b);
    let y = output(product_format(product), y);
    good_linear(value.num, value.den, y, mode)
}
