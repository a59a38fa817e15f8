//! The five ways in which one adder makes a number from two others by a shift, and the first way that makes a given number.
ghost use Rattle.std.specs.Prelude.{IfSome, IfNone};
ghost use Rattle.opgen_graph.specs.Adders.{IsTerm, Comb, IsFirstStep};

use crate::shifts::shift_to;

/// How an adder makes a number of `u` and `v`, with a shift of at least 1.
#[derive(Clone, Copy, Debug, PartialEq)]
pub enum Form {
    /// `2^shift * u + v`
    A,
    /// `2^shift * u - v`
    B,
    /// `v - 2^shift * u`
    C,
    /// `(u + v) / 2^shift`
    D,
    /// `|u - v| / 2^shift`
    E,
}

#[derive(Clone, Copy, Debug, PartialEq)]
pub struct Step {
    pub form: Form,
    pub shift: u32,
}

/// The first form, and then the least shift, that makes `f` of `u` and `v`.
pub fn combine(u: u32, v: u32, f: u32) -> Option<Step>
    requires { IsTerm u × IsTerm v × IsTerm f }
    ensures none { IfNone result (Comb u v f → ⊥) }
    ensures first { IfSome result (λ step. IsFirstStep u v f step) }
{
    if let Some(shift) = shift_to(u, f.saturating_sub(v)) {
        return Some(Step {
            form: Form::A,
            shift,
        });
    }
    if let Some(shift) = shift_to(u, f + v) {
        return Some(Step {
            form: Form::B,
            shift,
        });
    }
    if let Some(shift) = shift_to(u, v.saturating_sub(f)) {
        return Some(Step {
            form: Form::C,
            shift,
        });
    }
    if let Some(shift) = shift_to(f, u + v) {
        return Some(Step {
            form: Form::D,
            shift,
        });
    }
    let shift = shift_to(f, u.abs_diff(v))?;
    Some(Step {
        form: Form::E,
        shift,
    })
}
