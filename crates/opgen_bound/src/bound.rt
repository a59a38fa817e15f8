//! The shared bound of a search, one word that threads read and lower without a lock, and the pass that lets a thread use it.
ghost use Rattle.std.specs.Prelude.{◌≡◌, ◌≤◌, []};

use crate::view::{BoundRule, View};
use atomic_table::{Seat, Table};
use std::alloc::Global;

/// The least cost known. Threads share it by reference, and each works with a pass of its own.
///
/// Its table has no slots, so the type of what they would hold is never used.
pub struct Bound {
    pub(crate) table: Table<u8, View, u64, BoundRule, Global>,
    ghost one_word: { table.shared.table_id.words ≡ 1 },
    ghost no_slots: { table.shared.table_id.slots ≡ 0 },
}

/// The right to step on a bound. It takes no bytes.
#[derive(Drop)]
pub struct Pass {
    pub(crate) seat: Seat<u8, View>,
    ghost no_slots: { seat.me.1 ≡ [] },
    ghost some_share: { 1 ≤ seat.me.0.share },
}
