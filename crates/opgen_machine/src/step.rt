//! The steps of a machine as a type: each reads numbers of 64 bits from memory and appends one.
ghost use Rattle.std.specs.Prelude.{◌≡◌, ◌-◌, ◌^◌, ◌≤◌, length, if◌then◌else◌, nat_eq};
ghost use Rattle.opgen_machine.specs.Steps.{act, Reads};

/// One step: it reads numbers at places of a memory, and gives one number.
#[derive(Clone, Copy, Debug)]
pub enum Step {
    Constant(u64),
    Copy(usize),
    /// The number at `one` where that at `on` is 1, and else that at `other`.
    Choose {
        on: usize,
        one: usize,
        other: usize,
    },
    /// The number that stands as far behind `from` as the masked number at `on` says.
    Look {
        from: usize,
        on: usize,
        mask: u64,
    },
    /// The mask less the number: its bits turned round.
    Turn {
        of: usize,
        mask: u64,
    },
    Both {
        first: usize,
        second: usize,
    },
    Either {
        first: usize,
        second: usize,
    },
    Differ {
        first: usize,
        second: usize,
    },
    Add {
        first: usize,
        second: usize,
        mask: u64,
    },
    Subtract {
        first: usize,
        second: usize,
        mask: u64,
    },
    /// The number shifted down to its bit `low`, and masked.
    Part {
        of: usize,
        low: u32,
        mask: u64,
    },
    /// The number at `high`, shifted up, over that at `low`.
    Join {
        high: usize,
        low: usize,
        shift: u32,
    },
}

/// The place of a word's number, and the word's width in bits.
#[derive(Clone, Copy, Debug, PartialEq, Eq)]
pub struct Spot {
    pub place: usize,
    pub width: u32,
}

/// The number whose lowest bits are set.
pub(crate) fn mask(width: u32) -> u64
    requires { width ≤ 64 }
    ensures { result ≡ 2 ^ width - 1 }
{
    if width == 64 {
        u64::MAX
    } else {
        (1u64 << width) - 1
    }
}

// The first number where the condition is 1, and else the second.
fn choice(on: u64, one: u64, other: u64) -> u64
    ensures { result ≡ (if nat_eq on 1 then one else other) }
{
    if on == 1 { one } else { other }
}

/// The number of a step.
pub(crate) fn act(step: &Step, words: &[u64]) -> u64
    requires { Reads (length words.now) step.now }
    ensures { result ≡ act step.now words.now }
{
    match *step {
        Step::Constant(number) => number,
        Step::Copy(of) => words[of],
        Step::Choose { on, one, other } => choice(words[on], words[one], words[other]),
        Step::Look { from, on, mask } => words[from + (words[on] & mask) as usize],
        Step::Turn { of, mask } => mask.wrapping_sub(words[of]),
        Step::Both { first, second } => words[first] & words[second],
        Step::Either { first, second } => words[first] | words[second],
        Step::Differ { first, second } => words[first] ^ words[second],
        Step::Add {
            first,
            second,
            mask,
        } => words[first].wrapping_add(words[second]) & mask,
        Step::Subtract {
            first,
            second,
            mask,
        } => words[first].wrapping_sub(words[second]) & mask,
        Step::Part { of, low, mask } => (words[of] >> low) & mask,
        Step::Join { high, low, shift } => (words[high] << shift) | words[low],
    }
}
