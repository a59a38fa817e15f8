//! The design as far as a text was read: each statement adds a port, a signal or a driver to it.

ghost use Rattle.std.specs.Prelude.{◌≡◌, IfOk, IsTrue};
ghost use Rattle.opgen_names.specs.Names.{is_allowed_name};
ghost use Rattle.opgen_vhdl.specs.Statements.{with_entity, with_port, with_signal, with_driver, with_enable, with_name, with_architecture, nothing, scope};
ghost use Rattle.opgen_read.specs.Seen.{seen};
ghost use Rattle.opgen_read.specs.Names.{names_in};

use crate::declared::Declared;
use crate::expression::Scope;
use opgen_design::{Driver, Port, Signal};
use opgen_list::{Items, Text};
use std::alloc::{AllocError, Global};
use std::mem;

/// A design that is not complete, the name of its architecture, and whether the names that have to
/// agree do.
#[derive(Drop)]
pub struct Draft {
    pub name: Text,
    pub ports: Declared<Port>,
    pub signals: Declared<Signal>,
    pub drivers: Items<Driver>,
    pub enable: Option<usize>,
    pub architecture: Text,
    pub agrees: bool,
}

impl Draft {
    pub fn new(alloc: Global) -> Draft
        ensures { seen result ≡ nothing }
    {
        Draft {
            name: Text::from_string(String::new(alloc)),
            ports: Declared::new(alloc),
            signals: Declared::new(alloc),
            drivers: Items::new(alloc),
            enable: None,
            architecture: Text::from_string(String::new(alloc)),
            agrees: true,
        }
    }

    /// What names stand for.
    pub fn scope(&self) -> Scope<'_>
        ensures { names_in result ≡ scope (seen self.now) }
    {
        Scope {
            signals: &self.signals,
            ports: &self.ports,
        }
    }

    pub fn set_entity(&mut self, name: Text)
        ensures { seen self.new ≡ with_entity (seen self.old) name }
    {
        self.name = name;
    }

    pub fn add_port(&mut self, alloc: Global, port: Port) -> Result<(), AllocError>
        requires { IsTrue (is_allowed_name port.name) }
        ensures { IfOk result (λ _. seen self.new ≡ with_port (seen self.old) port) }
    {
        let ports = mem::replace(&mut self.ports, Declared::new(alloc));
        self.ports = ports.declare(port)?;
        Ok(())
    }

    pub fn add_signal(&mut self, alloc: Global, signal: Signal) -> Result<(), AllocError>
        requires { IsTrue (is_allowed_name signal.name) }
        ensures { IfOk result (λ _. seen self.new ≡ with_signal (seen self.old) signal) }
    {
        let signals = mem::replace(&mut self.signals, Declared::new(alloc));
        self.signals = signals.declare(signal)?;
        Ok(())
    }

    pub fn add_driver(&mut self, driver: Driver) -> Result<(), AllocError>
        ensures { IfOk result (λ _. seen self.new ≡ with_driver (seen self.old) driver) }
    {
        self.drivers.push(driver)?;
        Ok(())
    }

    pub fn set_enable(&mut self, enable: Option<usize>)
        ensures { seen self.new ≡ with_enable (seen self.old) enable }
    {
        self.enable = enable;
    }

    /// Notes whether the entity's name agrees, where it is written again.
    pub fn compare_entity(&mut self, name: Option<Text>)
        ensures { seen self.new ≡ with_name (seen self.old) self.old.name name }
    {
        if let Some(name) = name {
            self.agrees = self.agrees && self.name.as_str() == name.as_str();
        }
    }

    /// Notes whether the architecture's name agrees, where it is written again.
    pub fn compare_architecture(&mut self, name: Option<Text>)
        ensures { seen self.new ≡ with_name (seen self.old) self.old.architecture name }
    {
        if let Some(name) = name {
            self.agrees = self.agrees && self.architecture.as_str() == name.as_str();
        }
    }

    pub fn set_architecture(&mut self, own: Text, entity: Text)
        ensures { seen self.new ≡ with_architecture (seen self.old) own entity }
    {
        self.architecture = own;
        self.compare_entity(Some(entity));
    }
}
