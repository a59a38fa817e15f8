//! Runs a list of steps over a memory.
ghost use Rattle.std.specs.Prelude.{◌≡◌, ◌+◌, length, take};
ghost use Rattle.opgen_machine.specs.Steps.{exec, AreFine};

use crate::step::{Step, act};

/// Runs steps over the numbers before a place; each leaves its own at the next place.
pub(crate) fn run(steps: &[Step], from: usize, words: &mut [u64])
    requires fine { AreFine from steps.now }
    requires room { length words.old ≡ from + length steps.now }
    ensures { words.new ≡ exec steps.now (take from words.old) }
{
    for (i, step) in steps.iter().enumerate() {
        words[from + i] = act(step, words);
    }
}
