//! Checks whether a design is sound: runs the ten rules in order, and reports the first one that fails and where.
ghost use Rattle.std.specs.Prelude.{◌≡◌, ◌+◌, ◌<◌, ◌^◌, ℕ, Some, OnOk, IfErr, length};
ghost use Rattle.opgen_design.specs.Rules.{AreFirstDrivers, IsFaultAt, PortsPass, SignalsPass, fault_at};
ghost use Rattle.opgen_design.specs.declared.sound.Rule.TheVariants.{Undeclared, DeclaredTwice, Width, DrivenTwice, NotDriven, Cyclic, ReadsOutput, NoInitial, ChoiceTwice, BadEnable};
ghost use Rattle.opgen_design.specs.Sound.{DesignPasses, Holds, HasNumbers, IsOrdered, IsSound, IsFaultOf, rule_number};

use crate::Design;
use std::alloc::{AllocError, Global};
use thiserror::Error;

/// The rules of sound designs, in the order in which they are tried. Each has the name of what breaks it.
#[derive(Clone, Copy, Debug, PartialEq, Eq)]
pub enum Rule {
    /// Each number in a driver names a signal or a port, and the enable names a port.
    Undeclared,
    /// Names differ, and none is `clk`.
    DeclaredTwice,
    /// Widths are those that signals may have, and the two sides of each assignment agree.
    Width,
    /// Nothing has two drivers, and no input port has one.
    DrivenTwice,
    /// Each signal and each output port has a driver.
    NotDriven,
    /// No signal depends on itself without a register between.
    Cyclic,
    /// Output ports are not read.
    ReadsOutput,
    /// Signals of registers have an initial value.
    NoInitial,
    /// No table has an address twice.
    ChoiceTwice,
    /// The enable is an input port of one bit.
    BadEnable,
}

impl Rule {
    /// The number of the rule, from 1.
    pub fn number(self) -> u8
        ensures { result ≡ rule_number self }
    {
        match self {
            Rule::Undeclared => 1,
            Rule::DeclaredTwice => 2,
            Rule::Width => 3,
            Rule::DrivenTwice => 4,
            Rule::NotDriven => 5,
            Rule::Cyclic => 6,
            Rule::ReadsOutput => 7,
            Rule::NoInitial => 8,
            Rule::ChoiceTwice => 9,
            Rule::BadEnable => 10,
        }
    }
}

/// Why a design is not sound.
#[derive(Clone, Copy, Debug, PartialEq, Eq, Error)]
pub enum SoundFault {
    /// The first rule that fails, from 1, and the first place at which it does, from 1 in ports, then signals, then drivers. An
    /// enable that names no port is the place 0.
    #[error("rule {rule} fails at item {item}")]
    Unsound { rule: u8, item: u32 },
    #[error("out of memory")]
    Memory,
}

impl From<AllocError> for SoundFault {
    ghost use Rattle.std.specs.Prelude.{◌≡◌};
    ghost use Rattle.opgen_design.specs.declared.sound.SoundFault.TheVariants as fault;

    ghost from_gives = { λ _ f. f ≡ fault.Memory };

    fn from(_refused: AllocError) -> SoundFault {
        SoundFault::Memory
    }
}

// The fault of a rule that fails at a place, if it does.
fn failing(rule: Rule, before: usize, place: Option<usize>) -> Result<(), SoundFault>
    requires { (n : ℕ) → place ≡ Some n → before + n + 1 < 2 ^ 32 }
    ensures { result ≡ fault_at (rule_number rule) before place }
{
    match place {
        Some(place) => Err(SoundFault::Unsound {
            rule: rule.number(),
            item: (before + place + 1) as u32,
        }),
        None => Ok(()),
    }
}

impl Design {
    /// Whether ten rules hold: 1 each number in a driver names a signal or a port, and the enable a port, 2 names differ and none
    /// is `clk`, 3 widths agree, 4 nothing has two drivers and no input port has one, 5 each signal and output port has one, 6 no
    /// signal depends on itself without a register between, 7 output ports are not read, 8 signals of registers have an initial
    /// value, 9 no table has an address twice, 10 the enable is an input port of one bit.
    ///
    /// Time and memory go with the size of the design.
    ///
    /// # Errors
    ///
    /// `Unsound` gives the first rule that fails and the first place at which it fails.
    pub fn sound(&self, alloc: Global) -> Result<(), SoundFault>
        requires { HasNumbers self.now }
        ensures sound { OnOk result (IsSound self.now) }
        ensures first { IfErr result (IsFaultOf self.now) }
    {
        self.check_declared(alloc)?;
        self.check_names(alloc)?;
        self.check_widths()?;
        let firsts = self.first_drivers(alloc)?;
        self.check_drivers(alloc, &firsts)
    }

    // The rules after that on widths: those on what drives each signal and port come first.
    fn check_drivers(&self, alloc: Global, firsts: &[Option<usize>]) -> Result<(), SoundFault>
        requires numbers { HasNumbers self.now }
        requires declared { Holds self.now Undeclared }
        requires declared_once { Holds self.now DeclaredTwice }
        requires widths { Holds self.now Width }
        requires firsts { AreFirstDrivers self.now (length self.now.drivers) firsts.now }
        ensures sound { OnOk result (IsSound self.now) }
        ensures first { IfErr result (IsFaultOf self.now) }
    {
        self.check_driven_once(firsts)?;
        self.check_driven(firsts)?;
        self.check_ordered(alloc, firsts)?;
        self.check_inputs(alloc)?;
        self.check_initials(firsts)?;
        self.check_addresses(alloc)?;
        self.check_enable()
    }

    // How many places come before the drivers.
    fn before_drivers(&self) -> usize
        requires { HasNumbers self.now }
        ensures { result ≡ length self.now.ports + length self.now.signals }
    {
        self.ports.len() + self.signals.len()
    }

    fn check_enable_declared(&self) -> Result<(), SoundFault>
        ensures holds { OnOk result (DesignPasses self.now Undeclared) }
        ensures fault { IfErr result (IsFaultAt self.now Undeclared) }
    {
        match self.enable {
            Some(port) if port >= self.ports.len() => {
                Err(SoundFault::Unsound {
                    rule: Rule::Undeclared.number(),
                    item: 0,
                })
            }
            _ => Ok(()),
        }
    }

    fn check_driver_names(&self, alloc: Global) -> Result<(), SoundFault>
        requires numbers { HasNumbers self.now }
        requires enable { DesignPasses self.now Undeclared }
        ensures holds { OnOk result (Holds self.now Undeclared) }
        ensures fault { IfErr result (IsFaultAt self.now Undeclared) }
    {
        failing(
            Rule::Undeclared,
            self.before_drivers(),
            self.undeclared(alloc)?,
        )
    }

    fn check_declared(&self, alloc: Global) -> Result<(), SoundFault>
        requires { HasNumbers self.now }
        ensures holds { OnOk result (Holds self.now Undeclared) }
        ensures fault { IfErr result (IsFaultAt self.now Undeclared) }
    {
        self.check_enable_declared()?;
        self.check_driver_names(alloc)
    }

    fn check_names(&self, alloc: Global) -> Result<(), SoundFault>
        requires { HasNumbers self.now }
        ensures holds { OnOk result (Holds self.now DeclaredTwice) }
        ensures fault { IfErr result (IsFaultAt self.now DeclaredTwice) }
    {
        failing(Rule::DeclaredTwice, 0, self.declared_twice(alloc)?)
    }

    fn check_port_widths(&self) -> Result<(), SoundFault>
        requires { HasNumbers self.now }
        ensures holds { OnOk result (PortsPass self.now Width) }
        ensures fault { IfErr result (IsFaultAt self.now Width) }
    {
        failing(Rule::Width, 0, self.wrong_port())
    }

    fn check_signal_widths(&self) -> Result<(), SoundFault>
        requires numbers { HasNumbers self.now }
        requires ports { PortsPass self.now Width }
        ensures holds { OnOk result (SignalsPass self.now Width) }
        ensures fault { IfErr result (IsFaultAt self.now Width) }
    {
        failing(Rule::Width, self.ports.len(), self.wrong_signal())
    }

    fn check_driver_widths(&self) -> Result<(), SoundFault>
        requires numbers { HasNumbers self.now }
        requires declared { Holds self.now Undeclared }
        requires ports { PortsPass self.now Width }
        requires signals { SignalsPass self.now Width }
        ensures holds { OnOk result (Holds self.now Width) }
        ensures fault { IfErr result (IsFaultAt self.now Width) }
    {
        failing(Rule::Width, self.before_drivers(), self.wrong_driver())
    }

    fn check_widths(&self) -> Result<(), SoundFault>
        requires numbers { HasNumbers self.now }
        requires declared { Holds self.now Undeclared }
        ensures holds { OnOk result (Holds self.now Width) }
        ensures fault { IfErr result (IsFaultAt self.now Width) }
    {
        self.check_port_widths()?;
        self.check_signal_widths()?;
        self.check_driver_widths()
    }

    fn check_driven_once(&self, firsts: &[Option<usize>]) -> Result<(), SoundFault>
        requires numbers { HasNumbers self.now }
        requires declared { Holds self.now Undeclared }
        requires firsts { AreFirstDrivers self.now (length self.now.drivers) firsts.now }
        ensures holds { OnOk result (Holds self.now DrivenTwice) }
        ensures fault { IfErr result (IsFaultAt self.now DrivenTwice) }
    {
        failing(
            Rule::DrivenTwice,
            self.before_drivers(),
            self.driven_twice(firsts),
        )
    }

    fn check_driven_ports(&self, firsts: &[Option<usize>]) -> Result<(), SoundFault>
        requires numbers { HasNumbers self.now }
        requires declared { Holds self.now Undeclared }
        requires firsts { AreFirstDrivers self.now (length self.now.drivers) firsts.now }
        ensures holds { OnOk result (PortsPass self.now NotDriven) }
        ensures fault { IfErr result (IsFaultAt self.now NotDriven) }
    {
        failing(Rule::NotDriven, 0, self.undriven_port(firsts))
    }

    fn check_driven_signals(&self, firsts: &[Option<usize>]) -> Result<(), SoundFault>
        requires numbers { HasNumbers self.now }
        requires declared { Holds self.now Undeclared }
        requires firsts { AreFirstDrivers self.now (length self.now.drivers) firsts.now }
        requires ports { PortsPass self.now NotDriven }
        ensures holds { OnOk result (Holds self.now NotDriven) }
        ensures fault { IfErr result (IsFaultAt self.now NotDriven) }
    {
        failing(
            Rule::NotDriven,
            self.ports.len(),
            self.undriven_signal(firsts),
        )
    }

    fn check_driven(&self, firsts: &[Option<usize>]) -> Result<(), SoundFault>
        requires numbers { HasNumbers self.now }
        requires declared { Holds self.now Undeclared }
        requires firsts { AreFirstDrivers self.now (length self.now.drivers) firsts.now }
        ensures holds { OnOk result (Holds self.now NotDriven) }
        ensures fault { IfErr result (IsFaultAt self.now NotDriven) }
    {
        self.check_driven_ports(firsts)?;
        self.check_driven_signals(firsts)
    }

    fn check_ordered(&self, alloc: Global, firsts: &[Option<usize>]) -> Result<(), SoundFault>
        requires numbers { HasNumbers self.now }
        requires declared { Holds self.now Undeclared }
        requires firsts { AreFirstDrivers self.now (length self.now.drivers) firsts.now }
        requires once { Holds self.now DrivenTwice }
        ensures holds { OnOk result (Holds self.now Cyclic) }
        ensures ordered { OnOk result (IsOrdered self.now) }
        ensures fault { IfErr result (IsFaultAt self.now Cyclic) }
    {
        failing(
            Rule::Cyclic,
            self.before_drivers(),
            self.cyclic(alloc, firsts)?,
        )
    }

    fn check_inputs(&self, alloc: Global) -> Result<(), SoundFault>
        requires numbers { HasNumbers self.now }
        requires declared { Holds self.now Undeclared }
        ensures holds { OnOk result (Holds self.now ReadsOutput) }
        ensures fault { IfErr result (IsFaultAt self.now ReadsOutput) }
    {
        failing(
            Rule::ReadsOutput,
            self.before_drivers(),
            self.reads_output(alloc)?,
        )
    }

    fn check_initials(&self, firsts: &[Option<usize>]) -> Result<(), SoundFault>
        requires numbers { HasNumbers self.now }
        requires declared { Holds self.now Undeclared }
        requires firsts { AreFirstDrivers self.now (length self.now.drivers) firsts.now }
        requires once { Holds self.now DrivenTwice }
        ensures holds { OnOk result (Holds self.now NoInitial) }
        ensures fault { IfErr result (IsFaultAt self.now NoInitial) }
    {
        failing(Rule::NoInitial, self.ports.len(), self.no_initial(firsts))
    }

    fn check_addresses(&self, alloc: Global) -> Result<(), SoundFault>
        requires numbers { HasNumbers self.now }
        requires widths { Holds self.now Width }
        ensures holds { OnOk result (Holds self.now ChoiceTwice) }
        ensures fault { IfErr result (IsFaultAt self.now ChoiceTwice) }
    {
        failing(
            Rule::ChoiceTwice,
            self.before_drivers(),
            self.choice_twice(alloc)?,
        )
    }

    fn check_enable(&self) -> Result<(), SoundFault>
        requires numbers { HasNumbers self.now }
        requires declared { Holds self.now Undeclared }
        ensures holds { OnOk result (Holds self.now BadEnable) }
        ensures fault { IfErr result (IsFaultAt self.now BadEnable) }
    {
        failing(Rule::BadEnable, 0, self.bad_enable())
    }
}
