//! A target with a fixed list of delays, for each class of cells and each width.
ghost use Rattle.std.specs.Prelude.{◌≡◌, false, replicate, vec_len, string_bytes};
ghost use Rattle.opgen_target.specs.Tables.{list_table, listed_ledger};

use crate::ledger::Ledger;
use crate::place::place_of;
use crate::{Cell, Class, Target};
use std::marker::Model;

/// A target whose delays are listed. Its table cannot be changed.
#[derive(Drop)]
pub struct ListTarget {
    name: String,
    delays: Vec<u32>,
    ledger: Ledger,
}

impl Model for ListTarget {
    ghost use Rattle.std.specs.Prelude.{◌≡◌, string_bytes, vec_len};
    ghost use Rattle.opgen_target.specs.Tables.{ListState};

    ghost Value = { ListState };

    ghost view = { λ t. record { name = string_bytes t.name; delays = t.delays.items; charged = t.ledger.bits } };

    ghost invariant = { λ t. vec_len t.delays ≡ 768 };
}

impl ListTarget {
    /// The target of these delays in picoseconds: for each class in order those of the widths from 1 to 128. Its ledger is empty.
    pub fn new(name: String, numbers: Vec<u32>) -> ListTarget
        requires { vec_len numbers ≡ 768 }
        ensures { result ≡ record { name = string_bytes name; delays = numbers.items; charged = replicate 6 0 } }
    {
        ListTarget {
            name,
            delays: numbers,
            ledger: Ledger::empty(),
        }
    }
}

impl Target for ListTarget {
    ghost target_name = { λ t. t.name };

    ghost delays = { λ t. list_table t.delays };

    ghost adjustable = { λ t. false };

    ghost ledger = { λ t. listed_ledger t.charged };

    fn name(&self) -> &str {
        self.name.as_str()
    }

    fn delay(&self, cell: Cell) -> u32 {
        self.delays[128 * place_of(cell.class) + (cell.width - 1) as usize]
    }

    fn retune(&mut self, _class: Class, _base: u32, _per_bit: u32) -> bool {
        false
    }

    fn clear(&mut self) {
        self.ledger = Ledger::empty();
    }

    fn charge(&mut self, cell: Cell) {
        self.ledger.charge(cell);
    }

    fn charged(&self, class: Class) -> u64 {
        self.ledger.charged(class)
    }
}
