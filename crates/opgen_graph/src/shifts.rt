//! Splits a number into its odd part and a power of two, and finds the shift from an odd number to an even one.
ghost use Rattle.std.specs.Prelude.{◌≡◌, ℕ, ◌*◌, ◌^◌, ◌≤◌, ◌<◌, ◌%◌, IfSome, IfNone};

// The odd part of a number, and how often 2 divides it.
fn split_odd(n: u32) -> (u32, u32)
    requires { 0 < n }
    ensures odd { result.0 % 2 ≡ 1 }
    ensures product { 2 ^ result.1 * result.0 ≡ n }
{
    let shift = n.trailing_zeros();
    (n >> shift, shift)
}

/// The shift that makes an even number of an odd one, if there is one.
pub fn shift_to(odd: u32, even: u32) -> Option<u32>
    requires odd { odd % 2 ≡ 1 }
    requires even { even % 2 ≡ 0 }
    ensures none { IfNone result ((i : ℕ) → 2 ^ i * odd ≡ even → ⊥) }
    ensures some { IfSome result (λ i. (1 ≤ i) × (2 ^ i * odd ≡ even) × ((j : ℕ) → 2 ^ j * odd ≡ even → j ≡ i)) }
{
    if even == 0 {
        return None;
    }
    let (part, shift) = split_odd(even);
    if part == odd { Some(shift) } else { None }
}
