//! The trait of a target: the delays of its cells in picoseconds, and a ledger of the cells that were used.
ghost use Rattle.std.specs.Prelude.{◌≡◌, ℕ, List, Bool, if◌then◌else◌};
ghost use Rattle.opgen_target.specs.Delays.{Delays, IsTableWidth, IsLine, delay_of, with_line};
ghost use Rattle.opgen_target.specs.Ledger.{Ledger, empty_ledger, with_cell};

use crate::{Cell, Class};

/// What designs are planned for: a table of delays in picoseconds, and a ledger of cells.
pub trait Target: Drop {
    ghost target_name: { Self → List ℕ };

    // The delay of each class of cells at each width.
    ghost delays: { Self → Delays };

    // Whether the table can be changed.
    ghost adjustable: { Self → Bool };

    // How many bits of cells of each class were charged.
    ghost ledger: { Self → Ledger };

    fn name(&self) -> &str
        ensures { result.now ≡ target_name self.now };

    // The delay of a cell in picoseconds. That of a register of one bit is the setup time.
    fn delay(&self, cell: Cell) -> u32
        requires { IsTableWidth cell.width }
        ensures { result ≡ delay_of (delays self.now) cell };

    // Gives the cells of a class the delay `base + per_bit * width`, in picoseconds, and says whether it did.
    fn retune(&mut self, class: Class, base: u32, per_bit: u32) -> bool
        requires { IsLine base per_bit }
        ensures answer { result ≡ adjustable self.old }
        ensures delays { delays self.new ≡
            (if adjustable self.old then with_line class base per_bit (delays self.old) else delays self.old) }
        ensures target_name { target_name self.new ≡ target_name self.old }
        ensures adjustable { adjustable self.new ≡ adjustable self.old }
        ensures ledger { ledger self.new ≡ ledger self.old };

    // Empties the ledger.
    fn clear(&mut self)
        ensures ledger { ledger self.new ≡ empty_ledger }
        ensures target_name { target_name self.new ≡ target_name self.old }
        ensures delays { delays self.new ≡ delays self.old }
        ensures adjustable { adjustable self.new ≡ adjustable self.old };

    // Adds the width of a cell to the number of its class, which ends at `u64::MAX`.
    fn charge(&mut self, cell: Cell)
        requires { IsTableWidth cell.width }
        ensures ledger { ledger self.new ≡ with_cell cell (ledger self.old) }
        ensures target_name { target_name self.new ≡ target_name self.old }
        ensures delays { delays self.new ≡ delays self.old }
        ensures adjustable { adjustable self.new ≡ adjustable self.old };

    // The number of a class in the ledger.
    fn charged(&self, class: Class) -> u64
        ensures { result ≡ ledger self.now class };
}
