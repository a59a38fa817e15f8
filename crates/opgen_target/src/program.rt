//! The two targets of the program, `plain` and `fixed`, with their delays in picoseconds.
ghost use Rattle.std.specs.Prelude.{ℕ, ◌≡◌, ◌++◌, IfOk, codes, replicate};
ghost use Rattle.opgen_target.specs.Delays.{IsTableWidth};
ghost use Rattle.opgen_target.specs.Program.{plain_lines, fixed_delay, delays_of, fixed_delays};
ghost use Rattle.opgen_target.specs.Tables.{list_table};

use crate::{Class, LinearTarget, ListTarget};
use std::alloc::{AllocError, Global};

/// The target `plain`: a base and a step per bit for each class. Delay lines change it.
pub fn plain(alloc: Global) -> Result<LinearTarget, AllocError>
    ensures { IfOk result (λ t. t ≡ record { name = codes "plain"; lines = plain_lines; charged = replicate 6 0 }) }
{
    let lines = [(0, 0), (400, 0), (500, 30), (450, 0), (600, 50), (100, 0)];
    Ok(LinearTarget::new(String::from_str(alloc, "plain")?, lines))
}

// The delay of a cell of the target `fixed`, whose carries run in groups of eight bits.
fn fixed_delay(class: Class, width: u32) -> u32
    requires { IsTableWidth width }
    ensures { result ≡ fixed_delay class width }
{
    match class {
        Class::Wire => 0,
        Class::Logic => 350,
        Class::Add => 400 + 100 * width.div_ceil(8),
        Class::Choice => 400,
        Class::Table => 700,
        Class::Register => 80,
    }
}

// Appends the delays of a class, for the widths from 1 to 128.
fn push_delays(delays: &mut Vec<u32>, class: Class) -> Result<(), AllocError>
    ensures { IfOk result (λ _. delays.new.items ≡ delays.old.items ++ delays_of class 128) }
{
    'widths: for place in 0..128u32 {
        delays.push(fixed_delay(class, place + 1))?;
    }
    Ok(())
}

// The delays of each class in order.
fn fixed_delays(alloc: Global) -> Result<Vec<u32>, AllocError>
    ensures { IfOk result (λ delays. delays.items ≡ fixed_delays) }
{
    let mut delays = Vec::new(alloc);
    push_delays(&mut delays, Class::Wire)?;
    push_delays(&mut delays, Class::Logic)?;
    push_delays(&mut delays, Class::Add)?;
    push_delays(&mut delays, Class::Choice)?;
    push_delays(&mut delays, Class::Table)?;
    push_delays(&mut delays, Class::Register)?;
    Ok(delays)
}

/// The target `fixed`, which no delay line changes.
pub fn fixed(alloc: Global) -> Result<ListTarget, AllocError>
    ensures name { IfOk result (λ t. t.name ≡ codes "fixed") }
    ensures delays { IfOk result (λ t. (class : Class) (width : ℕ) → IsTableWidth width →
        list_table t.delays class width ≡ fixed_delay class width) }
    ensures ledger { IfOk result (λ t. t.charged ≡ replicate 6 0) }
{
    let delays = fixed_delays(alloc)?;
    Ok(ListTarget::new(String::from_str(alloc, "fixed")?, delays))
}
