//! The odd parts above 1 of the constants: the numbers that an adder graph has to make.
ghost use Rattle.std.specs.Prelude.{◌↔◌, ℕ, ◌≤◌, length, All, Contains, IfOk, IfSome, IfNone};
ghost use Rattle.opgen_num.specs.declared.limits.TheConstants.{MAX_SEARCHED_CONSTANT};
ghost use Rattle.opgen_ports.specs.OddParts.{odd_part_count};
ghost use Rattle.opgen_ports.specs.Ranges.{IsWithin};
ghost use Rattle.opgen_graph.specs.SignedDigits.{IsTarget};
ghost use Rattle.opgen_graph.specs.Targets.{AreTargetsOf, HasTarget, IsTargetOf};

use opgen_num::Memory;
use std::alloc::{AllocError, Global};

// The odd part of a constant, without its sign, if it is above 1.
fn target(constant: i64) -> Option<u32>
    requires { IsWithin MAX_SEARCHED_CONSTANT constant }
    ensures some { IfSome result (HasTarget constant) }
    ensures none { IfNone result ((x : ℕ) → HasTarget constant x → ⊥) }
{
    let number = constant.unsigned_abs() as u32;
    if number == 0 {
        return None;
    }
    let part = number >> number.trailing_zeros();
    if part > 1 { Some(part) } else { None }
}

// The odd parts above 1 of the constants, in their order.
fn odd_parts(alloc: Global, constants: &[i64]) -> Result<Vec<u32>, AllocError>
    requires { All (IsWithin MAX_SEARCHED_CONSTANT) constants.now }
    ensures parts { IfOk result (λ found. (x : ℕ) → Contains found.items x ↔ IsTargetOf constants.now x) }
    ensures few { IfOk result (λ found. length found.items ≤ length constants.now) }
{
    let mut found = Vec::new(alloc);
    'constants: for constant in constants {
        if let Some(part) = target(*constant) {
            found.push(part)?;
        }
    }
    Ok(found)
}

/// The numbers that an adder graph has to make for some constants: the odd parts above 1 of those
/// that are not 0, without their signs, increasing, each once.
pub fn targets(alloc: Global, constants: &[i64]) -> Result<Vec<u32>, Memory>
    requires { All (IsWithin MAX_SEARCHED_CONSTANT) constants.now }
    ensures targets { IfOk result (λ found. AreTargetsOf constants.now found.items) }
    ensures each { IfOk result (λ found. All IsTarget found.items) }
    ensures few { IfOk result (λ found. length found.items ≤ odd_part_count constants.now) }
{
    let mut found = odd_parts(alloc, constants)?;
    found.sort_unstable();
    found.dedup();
    Ok(found)
}
