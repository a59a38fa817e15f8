//! How many bits a sum may have in a period.
ghost use Rattle.std.specs.Prelude.{◌≡◌, ◌+◌, ◌≤◌, IsTrue, ◌↔◌};
ghost use Rattle.opgen_net.specs.declared.cell.Class.TheVariants as class;
ghost use Rattle.opgen_target.specs.Delays.{IsTableWidth, setup};
ghost use Rattle.opgen_timing.specs.Widths.{IsSumWidth, sum_width};

use opgen_net::{Cell, Class};
use opgen_num::MAX_WIDTH;
use opgen_target::Target;

// The fewest bits that sums are cut to.
pub(crate) const LEAST_WIDTH: u32 = 4;

// Whether a sum of so many bits and a register after it take no longer than a period.
fn fits(target: &Box<dyn Target>, period: u32, width: u32) -> bool
    requires { IsTableWidth width }
    ensures { IsTrue result ↔ (delays target.now class.Add width + setup (delays target.now) ≤ period) }
{
    let sum = target.delay(Cell {
        class: Class::Add,
        width,
    });
    let setup = target.delay(Cell {
        class: Class::Register,
        width: 1,
    });
    u64::from(sum) + u64::from(setup) <= u64::from(period)
}

/// The greatest width of sums in a period.
pub(crate) fn sum_width(target: &Box<dyn Target>, period: u32) -> u32
    ensures width { result ≡ sum_width (delays target.now) period }
    ensures greatest { IsSumWidth (delays target.now) period result }
{
    'widths: for most in 0..MAX_WIDTH {
        if !fits(target, period, most + 1) {
            return LEAST_WIDTH.max(most);
        }
    }
    MAX_WIDTH
}
