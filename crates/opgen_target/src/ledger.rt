//! The ledger of a target: how many bits of cells of each class were used.
ghost use Rattle.std.specs.Prelude.{◌≡◌, replicate};
ghost use Rattle.opgen_target.specs.Ledger.{with_cell};
ghost use Rattle.opgen_target.specs.Tables.{listed_ledger};

use crate::place::place_of;
use crate::{Cell, Class};

/// The bits of each class, in the order of the classes; each number ends at `u64::MAX`.
#[derive(Clone, Copy)]
pub(crate) struct Ledger {
    pub bits: [u64; 6],
}

impl Ledger {
    pub fn empty() -> Ledger
        ensures { result.bits ≡ replicate 6 0 }
    {
        Ledger { bits: [0; 6] }
    }

    /// Adds the width of a cell to the number of its class.
    pub fn charge(&mut self, cell: Cell)
        ensures { listed_ledger self.new.bits ≡ with_cell cell (listed_ledger self.old.bits) }
    {
        let number = &mut self.bits[place_of(cell.class)];
        *number = number.saturating_add(u64::from(cell.width));
    }

    pub fn charged(&self, class: Class) -> u64
        ensures { result ≡ listed_ledger self.now.bits class }
    {
        self.bits[place_of(class)]
    }
}

#[cfg(test)]
mod tests {
    use super::*;
    use std::test::Fail;

    #[test]
    fn numbers_end(rt: HostRuntime) -> Result<(), Fail> {
        let mut ledger = Ledger {
            bits: [u64::MAX - 7; 6],
        };
        for number in [u64::MAX - 2, u64::MAX, u64::MAX] {
            ledger.charge(Cell {
                class: Class::Add,
                width: 5,
            });
            assert_eq!(rt; ledger.charged(Class::Add), number);
        }
        assert_eq!(rt; ledger.charged(Class::Table), u64::MAX - 7);
        Ok(())
    }
}
