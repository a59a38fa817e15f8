//! The registers' next words, in each stream.
ghost use Rattle.std.specs.Prelude.{◌≡◌, ◌<◌, ◌≤◌, IfSome, Some, length, slice_get, slice_index};
ghost use Rattle.opgen_num.specs.declared.format.TheConstants.{MAX_WIDTH};
ghost use Rattle.opgen_design.specs.declared.design.Driver.{Driver};
ghost use Rattle.opgen_design.specs.Run.{moved};
ghost use Rattle.opgen_design.specs.Sound.{IsSound};
ghost use Rattle.opgen_design.specs.Value.{word_at};
ghost use Rattle.opgen_runs.specs.Evaluate.{hand_all_on, hand_on};
ghost use Rattle.opgen_streams.specs.Streams.{word_in};
ghost use Rattle.opgen_lanes.specs.Banks.{HasWords, IsBank, widths_of, words_at, words_of};
ghost use Rattle.opgen_lanes.specs.Ready.{AreBanksOf};
ghost use Rattle.opgen_lanes.specs.Words.{HaveWord};

use crate::bank::{Bank, Banks, room};
use crate::evaluate::evaluate;
use crate::words::choose;
use opgen_design::{Design, Driver};
use std::simd::prelude::*;

// Leaves a register's new word in the streams where it moves, and puts the word that it holds in the others.
fn moved(enable: Option<usize>, to: usize, banks: &Banks, new: &mut [u64x4])
    requires signals { IsBank banks.now.signals }
    requires ports { IsBank banks.now.ports }
    requires enable { IfSome enable (λ port. port < length banks.now.ports.places.items) }
    requires one_bit { IfSome enable (λ port. slice_index (widths_of banks.now.ports) port ≡ 1) }
    requires to { to < length banks.now.signals.places.items }
    requires width { length new.old ≡ slice_index (widths_of banks.now.signals) to }
    ensures { HaveWord new.new (λ k. moved enable (words_of banks.now k) (word_in new.old k) (word_at (words_at banks.now.signals k) to)) }
{
    if let Some(port) = enable {
        let on = banks.ports.word(port)[0];
        choose(on, new, banks.signals.word(to));
    }
}

// Puts a register's next word at its signal: the new word where there is no enable or its word is 1, and else the word that it holds.
// The new word comes by way of the room.
fn hand_on(design: &Design, place: usize, banks: &Banks, next: &mut Bank, new: &mut [u64x4])
    requires sound { IsSound design.now }
    requires place { place < length design.now.drivers }
    requires banks { AreBanksOf design.now banks.now.signals banks.now.ports }
    requires next { AreBanksOf design.now next.old banks.now.ports }
    requires room { MAX_WIDTH ≤ length new.old }
    ensures next { AreBanksOf design.now next.new banks.now.ports }
    ensures words { (driver : Driver) → slice_get design.now.drivers place ≡ Some driver
        → HasWords next.new (λ k. hand_on design.now.enable driver (words_of banks.now k) (words_at next.old k)) }
{
    if let Driver::Register { to, expr } = design.drivers.get(place) {
        let width = evaluate(expr.expr(), &banks.signals, &banks.ports, new, &mut []);
        moved(design.enable, *to, banks, &mut new[..width]);
        next.store(*to, new);
    }
}

/// Puts the registers' next words at their signals, all from the words of one cycle: new words where the registers move, and else
/// those that they hold.
pub fn hand_all_on(design: &Design, banks: &Banks, next: &mut Bank)
    requires sound { IsSound design.now }
    requires banks { AreBanksOf design.now banks.now.signals banks.now.ports }
    requires next { AreBanksOf design.now next.old banks.now.ports }
    ensures next { AreBanksOf design.now next.new banks.now.ports }
    ensures words { HasWords next.new (λ k. hand_all_on design.now.enable design.now.drivers (words_of banks.now k) (words_at next.old k)) }
{
    let mut new = room();
    for place in 0..design.drivers.len() {
        hand_on(design, place, banks, next, &mut new);
    }
}
