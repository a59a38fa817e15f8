//! The odd parts above 1 of the numbers: what a graph has to hold.
ghost use Rattle.std.specs.Prelude.{◌≡◌, ◌↔◌, ℕ, ◌*◌, ◌^◌, ◌%◌, ◌<◌, All, Contains, IfOk, IfSome, IfNone};
ghost use Rattle.opgen_num.specs.declared.limits.TheConstants.{MAX_CONSTANT};
ghost use Rattle.opgen_ports.specs.Ranges.{IsWithin};
ghost use Rattle.opgen_graph.specs.Targets.{AreTargetsOf, HasTarget, IsTargetOf};
ghost use Rattle.opgen_graph.specs.Reach.{IsWideMember};

use std::alloc::{AllocError, Global};

// The odd part of a number and how often 2 divides it.
pub(crate) fn split_odd(n: u32) -> (u32, u32)
    requires { 0 < n }
    ensures odd { result.0 % 2 ≡ 1 }
    ensures product { 2 ^ result.1 * result.0 ≡ n }
{
    let shift = n.trailing_zeros();
    (n >> shift, shift)
}

// The odd part of a number, without its sign, if it is above 1.
fn part(number: i64) -> Option<u32>
    requires { IsWithin MAX_CONSTANT number }
    ensures some { IfSome result (HasTarget number) }
    ensures none { IfNone result ((x : ℕ) → HasTarget number x → ⊥) }
{
    let size = number.unsigned_abs() as u32;
    if size == 0 {
        return None;
    }
    let part = size >> size.trailing_zeros();
    if part > 1 { Some(part) } else { None }
}

// The odd parts above 1 of the numbers, in their order.
fn parts_in_order(alloc: Global, numbers: &[i64]) -> Result<Vec<u32>, AllocError>
    requires { All (IsWithin MAX_CONSTANT) numbers.now }
    ensures { IfOk result (λ found. (x : ℕ) → Contains found.items x ↔ IsTargetOf numbers.now x) }
{
    let mut found = Vec::new(alloc);
    'numbers: for number in numbers {
        if let Some(part) = part(*number) {
            found.push(part)?;
        }
    }
    Ok(found)
}

// The odd parts above 1 of the numbers, increasing, each once.
pub(crate) fn odd_parts(alloc: Global, numbers: &[i64]) -> Result<Vec<u32>, AllocError>
    requires { All (IsWithin MAX_CONSTANT) numbers.now }
    ensures parts { IfOk result (λ found. AreTargetsOf numbers.now found.items) }
    ensures each { IfOk result (λ found. All IsWideMember found.items) }
{
    let mut found = parts_in_order(alloc, numbers)?;
    found.sort_unstable();
    found.dedup();
    Ok(found)
}
