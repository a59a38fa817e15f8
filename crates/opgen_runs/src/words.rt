//! The operators of expressions as operations on words: `not`, `and`, `or`, `xor`, `&`, `+`, `-`, and slices.
ghost use Rattle.std.specs.Prelude.{ℕ, ◌≡◌, ◌+◌, ◌-◌, ◌<◌, ◌≤◌, ◌++◌, ◌&&◌, ◌||◌, Some, false, true, length, map, not};
ghost use Rattle.opgen_num.specs.declared.format.TheConstants.{MAX_WIDTH};
ghost use Rattle.opgen_num.specs.Words.{pairwise, sum_with, xor, digit};
ghost use Rattle.opgen_design.specs.Value.{chosen, combined, cut, joined};

use opgen_design::Op;
use opgen_num::{Word, power};

fn digit(bit: bool) -> u128
    ensures { result ≡ digit bit }
{
    if bit { 1 } else { 0 }
}

/// Each bit turned.
pub fn turned(word: Word) -> Word
    requires { length word < 128 }
    ensures { result ≡ map not word }
{
    let width = word.width();
    Word::new(power(width) - 1 - word.bits(), width)
}

fn both(first: Word, second: Word) -> Word
    requires { length first ≡ length second }
    ensures { result ≡ pairwise ◌&&◌ first second }
{
    Word::new(first.bits() & second.bits(), first.width())
}

fn either(first: Word, second: Word) -> Word
    requires { length first ≡ length second }
    ensures { result ≡ pairwise ◌||◌ first second }
{
    Word::new(first.bits() | second.bits(), first.width())
}

fn different(first: Word, second: Word) -> Word
    requires { length first ≡ length second }
    ensures { result ≡ pairwise xor first second }
{
    Word::new(first.bits() ^ second.bits(), first.width())
}

/// The first word where the condition is the bit 1, and else the second.
pub fn chosen(on: Word, first: Word, second: Word) -> Word
    ensures { result ≡ chosen on first second }
{
    if on.width() == 1 && on.bits() == 1 {
        first
    } else {
        second
    }
}

// The first stands highest.
fn joined(first: Word, second: Word) -> Word
    requires { length first + length second < 128 }
    ensures { result ≡ second ++ first }
{
    let low = second.width();
    Word::new((first.bits() << low) + second.bits(), first.width() + low)
}

// The sum and a carry, without the last carry.
fn sum(first: Word, second: Word, carry: bool) -> Word
    requires same { length first ≡ length second }
    requires width { length first < 127 }
    ensures { result ≡ sum_with carry first second }
{
    let width = first.width();
    let total = first.bits() + second.bits() + digit(carry);
    Word::new(total % power(width), width)
}

/// Two operands together.
pub fn combined(op: Op, first: Word, second: Word) -> Word
    requires same { (w : ℕ) × (joined op (length first) (length second) ≡ Some w) }
    requires first { length first ≤ MAX_WIDTH }
    ensures { result ≡ combined op first second }
{
    match op {
        Op::And => both(first, second),
        Op::Or => either(first, second),
        Op::Xor => different(first, second),
        Op::Cat => joined(first, second),
        Op::Plus => sum(first, second, false),
        Op::Minus => sum(first, turned(second), true),
    }
}

/// The bits from `low` to `high`.
pub fn cut(high: u32, low: u32, word: Word) -> Word
    requires order { low ≤ high }
    requires within { high < length word }
    requires width { length word < 128 }
    ensures { result ≡ cut high low word }
{
    let width = high - low + 1;
    Word::new((word.bits() >> low) % power(width), width)
}
