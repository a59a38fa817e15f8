//! Copies designs and what they have.
ghost use Rattle.std.specs.Prelude.{◌≡◌, IfOk};

use crate::{Design, Driver, Formula, Port, Signal};
use opgen_list::Items;
use opgen_num::Word;
use std::alloc::{AllocError, Global};

impl Formula {
    /// Another formula that is the same.
    pub(crate) fn copy(&self, alloc: Global) -> Result<Formula, AllocError>
        ensures { IfOk result (λ f. f ≡ self.now) }
    {
        Ok(Formula::new(self.expr().copy(alloc)?))
    }
}

impl Port {
    /// Another port that is the same.
    pub(crate) fn copy(&self, alloc: Global) -> Result<Port, AllocError>
        ensures { IfOk result (λ p. p ≡ self.now) }
    {
        Ok(Port {
            name: self.name.copy(alloc)?,
            dir: self.dir,
            width: self.width,
        })
    }
}

impl Signal {
    /// Another signal that is the same.
    pub(crate) fn copy(&self, alloc: Global) -> Result<Signal, AllocError>
        ensures { IfOk result (λ s. s ≡ self.now) }
    {
        Ok(Signal {
            name: self.name.copy(alloc)?,
            width: self.width,
            initial: self.initial,
        })
    }
}

fn rows(alloc: Global, rows: &[(Word, Word)]) -> Result<Items<(Word, Word)>, AllocError>
    ensures { IfOk result (λ rs. rs ≡ rows.now) }
{
    let mut copies = Items::new(alloc);
    for row in rows {
        copies.push(*row)?;
    }
    Ok(copies)
}

impl Driver {
    /// Another driver that is the same.
    pub(crate) fn copy(&self, alloc: Global) -> Result<Driver, AllocError>
        ensures { IfOk result (λ k. k ≡ self.now) }
    {
        Ok(match self {
            Driver::Assign { to, expr } => Driver::Assign {
                to: *to,
                expr: expr.copy(alloc)?,
            },
            Driver::Choice { to, on, yes, no } => Driver::Choice {
                to: *to,
                on: on.copy(alloc)?,
                yes: yes.copy(alloc)?,
                no: no.copy(alloc)?,
            },
            Driver::Table {
                to,
                on,
                rows: pairs,
                other,
            } => Driver::Table {
                to: *to,
                on: on.copy(alloc)?,
                rows: rows(alloc, pairs.as_slice())?,
                other: *other,
            },
            Driver::Register { to, expr } => Driver::Register {
                to: *to,
                expr: expr.copy(alloc)?,
            },
            Driver::Output { port, expr } => Driver::Output {
                port: *port,
                expr: expr.copy(alloc)?,
            },
        })
    }
}

fn ports(alloc: Global, ports: &[Port]) -> Result<Items<Port>, AllocError>
    ensures { IfOk result (λ ps. ps ≡ ports.now) }
{
    let mut copies = Items::new(alloc);
    for port in ports {
        copies.push(port.copy(alloc)?)?;
    }
    Ok(copies)
}

fn signals(alloc: Global, signals: &[Signal]) -> Result<Items<Signal>, AllocError>
    ensures { IfOk result (λ ss. ss ≡ signals.now) }
{
    let mut copies = Items::new(alloc);
    for signal in signals {
        copies.push(signal.copy(alloc)?)?;
    }
    Ok(copies)
}

fn drivers(alloc: Global, drivers: &[Driver]) -> Result<Items<Driver>, AllocError>
    ensures { IfOk result (λ ks. ks ≡ drivers.now) }
{
    let mut copies = Items::new(alloc);
    for driver in drivers {
        copies.push(driver.copy(alloc)?)?;
    }
    Ok(copies)
}

impl Design {
    /// Another design that is the same.
    pub fn copy(&self, alloc: Global) -> Result<Design, AllocError>
        ensures { IfOk result (λ d. d ≡ self.now) }
    {
        Ok(Design {
            name: self.name.copy(alloc)?,
            ports: ports(alloc, self.ports.as_slice())?,
            signals: signals(alloc, self.signals.as_slice())?,
            drivers: drivers(alloc, self.drivers.as_slice())?,
            enable: self.enable,
        })
    }
}
