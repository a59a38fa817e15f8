//! Tests whether one adder can make a number from two numbers that are already there.
ghost use Rattle.std.specs.Prelude.{◌↔◌, ℕ, All, Contains, IsTrue};
ghost use Rattle.opgen_graph.specs.Adders.{IsTerm, CombEither, IsOddPart};
ghost use Rattle.opgen_graph.specs.Reach.{Among};

use crate::shifts::shift_to;

// Whether a number is the odd part of the sum or of the difference of two odd numbers.
fn is_odd_part(part: u32, u: u32, v: u32) -> bool
    requires { IsTerm part × IsTerm u × IsTerm v }
    ensures { IsTrue result ↔ IsOddPart part u v }
{
    shift_to(part, u + v).is_some() || shift_to(part, u.abs_diff(v)).is_some()
}

// Whether an adder makes a number of two others, in either order: one of the three is an odd part of the others.
fn makes(u: u32, v: u32, f: u32) -> bool
    requires { IsTerm u × IsTerm v × IsTerm f }
    ensures { IsTrue result ↔ CombEither u v f }
{
    if is_odd_part(f, u, v) {
        return true;
    }
    if is_odd_part(u, v, f) {
        return true;
    }
    is_odd_part(v, u, f)
}

/// Whether an adder makes a number of `u` and one of the others, in either order.
pub fn makes_with(others: &[u32], u: u32, f: u32) -> bool
    requires { All IsTerm others.now × IsTerm u × IsTerm f }
    ensures { IsTrue result ↔ ((v : ℕ) × Contains others.now v × CombEither u v f) }
{
    for v in others {
        if makes(u, *v, f) {
            return true;
        }
    }
    false
}

/// Whether an adder makes a number of two that are placed.
pub fn makes_among(placed: &[u32], f: u32) -> bool
    requires { All IsTerm placed.now × IsTerm f }
    ensures { IsTrue result ↔ Among placed.now f }
{
    for (k, u) in placed.iter().enumerate() {
        if makes_with(&placed[..=k], *u, f) {
            return true;
        }
    }
    false
}
