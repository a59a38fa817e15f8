//! A target whose delays are lines, a base and a step per bit for each class of cells, which a specification can change.
ghost use Rattle.std.specs.Prelude.{◌≡◌, ◌*◌, ◌+◌, true, replicate, string_bytes};
ghost use Rattle.opgen_target.specs.Tables.{AreLines, line_table, listed_ledger};

use crate::ledger::Ledger;
use crate::place::place_of;
use crate::{Cell, Class, Target};
use std::marker::Model;

/// A target whose delays grow with the width by a line for each class. Its table can be changed.
#[derive(Drop)]
pub struct LinearTarget {
    name: String,
    lines: [(u32, u32); 6],
    ledger: Ledger,
}

impl Model for LinearTarget {
    ghost use Rattle.std.specs.Prelude.{◌≡◌, length, string_bytes};
    ghost use Rattle.opgen_target.specs.Tables.{LinearState, AreLines};

    ghost Value = { LinearState };

    ghost view = { λ t. record { name = string_bytes t.name; lines = t.lines; charged = t.ledger.bits } };

    ghost invariant = { λ t. (length t.lines ≡ 6) × AreLines t.lines };
}

impl LinearTarget {
    /// The target with the base and the step per bit of each class, in the order of the classes, and with an empty ledger.
    pub fn new(name: String, lines: [(u32, u32); 6]) -> LinearTarget
        requires { AreLines lines }
        ensures { result ≡ record { name = string_bytes name; lines = lines; charged = replicate 6 0 } }
    {
        LinearTarget {
            name,
            lines,
            ledger: Ledger::empty(),
        }
    }
}

impl Target for LinearTarget {
    ghost target_name = { λ t. t.name };

    ghost delays = { λ t. line_table t.lines };

    ghost adjustable = { λ t. true };

    ghost ledger = { λ t. listed_ledger t.charged };

    fn name(&self) -> &str {
        self.name.as_str()
    }

    fn delay(&self, cell: Cell) -> u32 {
        let (base, per_bit) = self.lines[place_of(cell.class)];
        base + per_bit * cell.width
    }

    fn retune(&mut self, class: Class, base: u32, per_bit: u32) -> bool {
        self.lines[place_of(class)] = (base, per_bit);
        true
    }

    fn clear(&mut self) {
        self.ledger = Ledger::empty();
    }

    fn charge(&mut self, cell: Cell) {
        self.ledger.charge(cell);
    }

    fn charged(&self, class: Class) -> u64 {
        self.ledger.charged(class)
    }
}
