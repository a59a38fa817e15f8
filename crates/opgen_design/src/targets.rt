//! Which signal or output port each driver drives, and the first driver of each of them.
ghost use Rattle.std.specs.Prelude.{◌≡◌, ◌<◌, ◌^◌, IfOk, IsTrue, ◌↔◌, length};
ghost use Rattle.opgen_design.specs.Order.{is_register};
ghost use Rattle.opgen_design.specs.Rules.{AreFirstDrivers, noted, slot};
ghost use Rattle.opgen_design.specs.declared.sound.Rule.TheVariants.{Undeclared};
ghost use Rattle.opgen_design.specs.Sound.{Holds, HasNumbers, Names, IsInput, target};

use crate::{Design, Dir, Driver, Target};
use std::alloc::{AllocError, Global};

impl Driver {
    /// What the driver drives.
    pub fn target(&self) -> Target
        ensures { result ≡ target self.now }
    {
        match self {
            Driver::Assign { to, .. }
            | Driver::Choice { to, .. }
            | Driver::Table { to, .. }
            | Driver::Register { to, .. } => Target::Signal(*to),
            Driver::Output { port, .. } => Target::Port(*port),
        }
    }

    /// Whether the driver is a register.
    pub fn is_register(&self) -> bool
        ensures { result ≡ is_register self.now }
    {
        matches!(self, Driver::Register { .. })
    }

    /// The slot of what the driver drives, in a design of so many signals: that of a signal, or after those that of a port.
    pub(crate) fn slot(&self, signals: usize) -> usize
        requires { slot signals (target self.now) < 2 ^ 64 }
        ensures { result ≡ slot signals (target self.now) }
    {
        match self.target() {
            Target::Signal(signal) => signal,
            Target::Port(port) => signals + port,
        }
    }
}

// Notes a number at a slot that has none.
fn note(firsts: &mut Vec<Option<usize>>, slot: usize, number: usize)
    requires { slot < length firsts.old.items }
    ensures { firsts.new.items ≡ noted firsts.old.items slot number }
{
    if firsts[slot].is_none() {
        firsts[slot] = Some(number);
    }
}

impl Design {
    /// The first driver of each slot, if it has one.
    pub(crate) fn first_drivers(&self, alloc: Global) -> Result<Vec<Option<usize>>, AllocError>
        requires numbers { HasNumbers self.now }
        requires declared { Holds self.now Undeclared }
        ensures { IfOk result (λ v. AreFirstDrivers self.now (length self.now.drivers) v.items) }
    {
        let signals = self.signals.len();
        let mut firsts = vec![in alloc; None; signals + self.ports.len()]?;
        for i in 0..self.drivers.len() {
            note(&mut firsts, self.drivers.get(i).slot(signals), i);
        }
        Ok(firsts)
    }

    /// Whether a driver drives an input port.
    pub(crate) fn drives_input(&self, driver: &Driver) -> bool
        requires { Names self.now (target driver.now) }
        ensures { IsTrue result ↔ IsInput self.now (target driver.now) }
    {
        match driver.target() {
            Target::Signal(_) => false,
            Target::Port(port) => matches!(self.ports.get(port).dir, Dir::In),
        }
    }
}
