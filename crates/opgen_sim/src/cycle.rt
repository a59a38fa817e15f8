//! Runs one cycle of a design over words: the drivers in order, then the next words of the registers.
ghost use Rattle.std.specs.Prelude.{◌≡◌, length, map};
ghost use Rattle.opgen_design.specs.Order.{IsOrderOf};
ghost use Rattle.opgen_design.specs.Sound.{IsSound, signal_widths};
ghost use Rattle.opgen_runs.specs.Evaluate.{HaveWidths};
ghost use Rattle.opgen_sim.specs.Ready.{RunsCycle, all_words};
ghost use Rattle.opgen_sim.specs.Tables.{AreTables};

use crate::evaluate::{hand_all_on, settle};
use crate::tables::Rows;
use opgen_design::Design;
use opgen_num::Word;

/// Runs one cycle of a sound design in place: before it the registers' words stand in `signals` and the inputs in `ports`, after it
/// both have the words of the settled cycle, and `next` has the registers' next words.
///
/// `order` is an order of evaluation, as [`Design::order`] finds it, and `tables` has the rows of each driver by their addresses.
pub fn run_cycle(
    design: &Design,
    order: &[usize],
    tables: &[Rows],
    signals: &mut [Word],
    ports: &mut [Word],
    next: &mut [Word],
)
    requires sound { IsSound design.now }
    requires order { IsOrderOf design.now order.now }
    requires tables { AreTables design.now.drivers tables.now }
    requires widths { HaveWidths design.now (all_words signals.old ports.old) }
    requires room { map length next.old ≡ signal_widths design.now }
    ensures cycle { RunsCycle design.now (all_words signals.old ports.old) (all_words signals.new ports.new) next.new }
    ensures widths { map length next.new ≡ signal_widths design.now }
{
    settle(design, order, tables, signals, ports);
    hand_all_on(design, signals, ports, next);
}
