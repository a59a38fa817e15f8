//! The target of a specification, among those that the program was given.
ghost use Rattle.std.specs.Prelude.{◌≡◌, find, All, IfOk, true};
ghost use Rattle.std.specs.Str.{bytes_eq};
ghost use Rattle.opgen_operator.specs.Valid.{IsDelayLine, IsValidSpec};
ghost use Rattle.opgen_target.specs.Delays.{with_line};
ghost use Rattle.opgen_top.specs.Prepared.{IfRefused, IsListed};
ghost use Rattle.opgen_top.specs.Specified.{OnDevices};
ghost use Rattle.opgen_top.specs.Targets.{devices_of, takes_lines, tuned, IsTableOf};

use crate::answer::Refusal;
use crate::line::Line;
use opgen_spec::{DelayLine, Spec};
use opgen_target::Target;

fn has_name(target: &Box<dyn Target>, name: &str) -> bool
    ensures { result ≡ bytes_eq (target_name target.now) name.now }
{
    target.name() == name
}

// The first target of a name. The others are dropped.
fn first_of_name(mut targets: Vec<Box<dyn Target>>, name: &str) -> Option<Box<dyn Target>>
    ensures { result ≡ find (λ t. bytes_eq (target_name t) name.now) targets.items }
{
    while !targets.is_empty() {
        let target = targets.remove(0);
        if has_name(&target, name) {
            return Some(target);
        }
    }
    None
}

// Changes the table of a target by a delay line, and says whether it took it.
fn takes(target: &mut Box<dyn Target>, line: DelayLine) -> bool
    requires { IsDelayLine line }
    ensures takes { result ≡ adjustable target.old }
    ensures tuned { result ≡ true → delays target.new ≡ with_line line.class line.base line.per_bit (delays target.old) }
    ensures adjustable { adjustable target.new ≡ adjustable target.old }
{
    target.retune(line.class, line.base, line.per_bit)
}

// Changes the table of a target by delay lines, in order, and says whether it took them.
fn takes_all(target: &mut Box<dyn Target>, lines: &[DelayLine]) -> bool
    requires { All IsDelayLine lines.now }
    ensures takes { result ≡ takes_lines (adjustable target.old) lines.now }
    ensures tuned { result ≡ true → delays target.new ≡ tuned (delays target.old) lines.now }
{
    'lines: for line in lines {
        if !takes(target, *line) {
            return false;
        }
    }
    true
}

/// The target of a specification, with its table after the delay lines.
pub(crate) fn choose_target(
    targets: Vec<Box<dyn Target>>,
    spec: &Spec,
) -> Result<Box<dyn Target>, Refusal>
    requires { IsValidSpec spec.now }
    ensures table { IfOk result (λ t. IsTableOf spec.now (devices_of target_name delays adjustable targets.items) (delays t)) }
    ensures refused { IfRefused result (λ a. OnDevices (devices_of target_name delays adjustable targets.items) spec.now a (λ table. ⊥)) }
    ensures listed { IfRefused result IsListed }
{
    let Some(mut target) = first_of_name(targets, spec.target.as_str()) else {
        return Err(Refusal::Line(Line::UnknownTarget));
    };
    if takes_all(&mut target, spec.delays.as_slice()) {
        Ok(target)
    } else {
        Err(Refusal::Line(Line::NotAdjustable))
    }
}
