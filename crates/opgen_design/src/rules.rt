//! The rules of sound designs, one function for each: the first port, signal or driver that breaks the rule.
ghost use Rattle.std.specs.Prelude.{◌≡◌, ◌≢◌, ◌+◌, ◌<◌, ℕ, Some, None, All, IfOk, IfSome, IsSome, IsTrue, ◌↔◌, length, slice_get, slice_index_or, []};
ghost use Rattle.std.specs.List.{AllPairs};
ghost use Rattle.opgen_components.specs.Graph.{graph_of};
ghost use Rattle.opgen_design.specs.Rules.{IsFirstFailing, AreFirstDrivers, AreNeeds, AreGroups, DifferentAddresses, IsDrivenAt, IsRegisterAt, needs_at};
ghost use Rattle.opgen_design.specs.declared.design.Target.TheVariants.{Signal as signal, Port as port_of};
ghost use Rattle.opgen_design.specs.declared.sound.Rule.TheVariants.{Undeclared, Width, DrivenTwice, NotDriven, Cyclic, ReadsOutput, NoInitial, ChoiceTwice, BadEnable};
ghost use Rattle.opgen_design.specs.Sound.{Holds, HasNumbers, IsDeclared, IsNewName, IsSignalWide, IsOnlyDriver, IsDriven, IsOffCycles, IsOrdered, ReadsInputs, HasInitial, AddressesDiffer, Names, WidthsAgree, PortPasses, SignalPasses, DriverPasses, names_of, target};
ghost use Rattle.opgen_design.specs.Value.{IsWidth};
ghost use Rattle.opgen_design.specs.declared.design.Dir.TheVariants.{In};

use crate::reads::Uses;
use crate::{Design, Dir, Driver, Port, Signal, Target};
use opgen_components::{Component, components};
use opgen_num::{MAX_WIDTH, Word};
use std::alloc::{AllocError, Global};
use std::collections::HashSet;

fn is_width(width: u32) -> bool
    ensures { IsTrue result ↔ IsWidth width }
{
    1 <= width && width <= MAX_WIDTH
}

fn all_below(numbers: &[usize], bound: usize) -> bool
    ensures { IsTrue result ↔ All (λ n. n < bound) numbers.now }
{
    numbers.iter().all(|n| *n < bound)
}

fn are_below(uses: &Uses, signals: usize, ports: usize) -> bool
    ensures { IsTrue result ↔ (All (λ n. n < signals) uses.now.names.items × All (λ p. p < ports) uses.now.ports.items) }
{
    all_below(&uses.names, signals) && all_below(&uses.ports, ports)
}

// Whether a number is the first of a slot.
fn is_first(firsts: &[Option<usize>], slot: usize, number: usize) -> bool
    requires { slot < length firsts.now }
    ensures { IsTrue result ↔ (slice_index_or firsts.now slot None ≡ Some number) }
{
    firsts[slot] == Some(number)
}

fn all_differ(alloc: Global, numbers: &[u128]) -> Result<bool, AllocError>
    ensures { IfOk result (λ b. IsTrue b ↔ AllPairs (λ x y. x ≢ y) numbers.now) }
{
    let met: HashSet<u128> = numbers.iter().copied().collect(alloc)?;
    Ok(met.len() == numbers.len())
}

// Whether no address stands twice in the rows of a table, whose addresses are of one width.
fn addresses_differ(alloc: Global, rows: &[(Word, Word)]) -> Result<bool, AllocError>
    requires { AllPairs (λ r q. length r.0 ≡ length q.0) rows.now }
    ensures { IfOk result (λ b. IsTrue b ↔ DifferentAddresses rows.now) }
{
    let mut numbers = Vec::new(alloc);
    for (address, _) in rows {
        numbers.push(address.bits())?;
    }
    all_differ(alloc, &numbers)
}

impl Signal {
    fn is_wide(&self) -> bool
        ensures { IsTrue result ↔ IsSignalWide self.now }
    {
        match self.initial {
            Some(word) => is_width(self.width) && word.width() == self.width,
            None => is_width(self.width),
        }
    }
}

impl Port {
    fn is_for_enable(&self) -> bool
        ensures { IsTrue result ↔ ((self.now.dir ≡ In) × (self.now.width ≡ 1)) }
    {
        matches!(self.dir, Dir::In) && self.width == 1
    }
}

// Each gives the first place at which a rule fails, if it fails at one.
impl Design {
    fn has_target(&self, driver: &Driver) -> bool
        ensures { IsTrue result ↔ Names self.now (target driver.now) }
    {
        match driver.target() {
            Target::Signal(signal) => signal < self.signals.len(),
            Target::Port(port) => port < self.ports.len(),
        }
    }

    fn is_declared(&self, alloc: Global, driver: &Driver) -> Result<bool, AllocError>
        ensures { IfOk result (λ b. IsTrue b ↔ IsDeclared self.now driver.now) }
    {
        let uses = driver.uses(alloc)?;
        if !self.has_target(driver) {
            return Ok(false);
        }
        Ok(are_below(&uses, self.signals.len(), self.ports.len()))
    }

    pub(crate) fn undeclared(&self, alloc: Global) -> Result<Option<usize>, AllocError>
        ensures { IfOk result (IsFirstFailing (DriverPasses self.now Undeclared) self.now.drivers) }
    {
        for i in 0..self.drivers.len() {
            if !self.is_declared(alloc, self.drivers.get(i))? {
                return Ok(Some(i));
            }
        }
        Ok(None)
    }

    // The names of the ports, and then of the signals.
    fn name(&self, place: usize) -> &str
        requires { place < length (names_of self.now) }
        ensures { result.now ≡ slice_index_or (names_of self.now) place [] }
    {
        let ports = self.ports.len();
        if place < ports {
            self.ports.get(place).name.as_str()
        } else {
            self.signals.get(place - ports).name.as_str()
        }
    }

    pub(crate) fn declared_twice(&self, alloc: Global) -> Result<Option<usize>, AllocError>
        requires { HasNumbers self.now }
        ensures { IfOk result (IsFirstFailing (λ i name. IsNewName (names_of self.now) i) (names_of self.now)) }
    {
        let mut met: HashSet<&str> = HashSet::new(alloc);
        for i in 0..self.ports.len() + self.signals.len() {
            let name = self.name(i);
            if name == "clk" {
                return Ok(Some(i));
            }
            if !met.insert(name)? {
                return Ok(Some(i));
            }
        }
        Ok(None)
    }

    pub(crate) fn wrong_port(&self) -> Option<usize>
        ensures { IsFirstFailing (PortPasses self.now Width) self.now.ports result }
    {
        for i in 0..self.ports.len() {
            if !is_width(self.ports.get(i).width) {
                return Some(i);
            }
        }
        None
    }

    pub(crate) fn wrong_signal(&self) -> Option<usize>
        ensures { IsFirstFailing (SignalPasses self.now Width) self.now.signals result }
    {
        for i in 0..self.signals.len() {
            if !self.signals.get(i).is_wide() {
                return Some(i);
            }
        }
        None
    }

    fn widths_agree(&self, driver: &Driver) -> bool
        requires { Names self.now (target driver.now) }
        ensures { IsTrue result ↔ WidthsAgree self.now driver.now }
    {
        match driver {
            Driver::Assign { to, expr } => {
                expr.expr().width(self) == Some(self.signals.get(*to).width)
            }
            Driver::Register { to, expr } => {
                expr.expr().width(self) == Some(self.signals.get(*to).width)
            }
            Driver::Output { port, expr } => {
                expr.expr().width(self) == Some(self.ports.get(*port).width)
            }
            Driver::Choice { to, on, yes, no } => {
                let width = self.signals.get(*to).width;
                on.expr().width(self) == Some(1)
                    && yes.expr().width(self) == Some(width)
                    && no.expr().width(self) == Some(width)
            }
            Driver::Table {
                to,
                on,
                rows,
                other,
            } => {
                let width = self.signals.get(*to).width;
                rows_agree(rows.as_slice(), *other, on.expr().width(self), width)
            }
        }
    }

    pub(crate) fn wrong_driver(&self) -> Option<usize>
        requires { Holds self.now Undeclared }
        ensures { IsFirstFailing (DriverPasses self.now Width) self.now.drivers result }
    {
        for i in 0..self.drivers.len() {
            if !self.widths_agree(self.drivers.get(i)) {
                return Some(i);
            }
        }
        None
    }

    fn is_only_driver(&self, firsts: &[Option<usize>], place: usize, driver: &Driver) -> bool
        requires numbers { HasNumbers self.now }
        requires declared { Holds self.now Undeclared }
        requires firsts { AreFirstDrivers self.now (length self.now.drivers) firsts.now }
        requires at { slice_get self.now.drivers place ≡ Some driver.now }
        ensures { IsTrue result ↔ IsOnlyDriver self.now place driver.now }
    {
        let slot = driver.slot(self.signals.len());
        !self.drives_input(driver) && is_first(firsts, slot, place)
    }

    pub(crate) fn driven_twice(&self, firsts: &[Option<usize>]) -> Option<usize>
        requires numbers { HasNumbers self.now }
        requires declared { Holds self.now Undeclared }
        requires firsts { AreFirstDrivers self.now (length self.now.drivers) firsts.now }
        ensures { IsFirstFailing (DriverPasses self.now DrivenTwice) self.now.drivers result }
    {
        for i in 0..self.drivers.len() {
            if !self.is_only_driver(firsts, i, self.drivers.get(i)) {
                return Some(i);
            }
        }
        None
    }

    fn is_driven(&self, firsts: &[Option<usize>], slot: usize) -> bool
        requires slot { slot < length self.now.signals + length self.now.ports }
        requires firsts { AreFirstDrivers self.now (length self.now.drivers) firsts.now }
        ensures { IsTrue result ↔ IsDrivenAt self.now slot }
    {
        firsts[slot].is_some()
    }

    fn is_port_driven(&self, firsts: &[Option<usize>], place: usize, port: &Port) -> bool
        requires place { place < length self.now.ports }
        requires numbers { HasNumbers self.now }
        requires declared { Holds self.now Undeclared }
        requires firsts { AreFirstDrivers self.now (length self.now.drivers) firsts.now }
        ensures { IsTrue result ↔ (port.now.dir ≡ Dir.Out → IsDriven self.now (port_of place)) }
    {
        match port.dir {
            Dir::In => true,
            Dir::Out => self.is_driven(firsts, self.signals.len() + place),
        }
    }

    pub(crate) fn undriven_port(&self, firsts: &[Option<usize>]) -> Option<usize>
        requires numbers { HasNumbers self.now }
        requires declared { Holds self.now Undeclared }
        requires firsts { AreFirstDrivers self.now (length self.now.drivers) firsts.now }
        ensures { IsFirstFailing (PortPasses self.now NotDriven) self.now.ports result }
    {
        for i in 0..self.ports.len() {
            if !self.is_port_driven(firsts, i, self.ports.get(i)) {
                return Some(i);
            }
        }
        None
    }

    fn is_signal_driven(&self, firsts: &[Option<usize>], place: usize) -> bool
        requires place { place < length self.now.signals }
        requires declared { Holds self.now Undeclared }
        requires firsts { AreFirstDrivers self.now (length self.now.drivers) firsts.now }
        ensures { IsTrue result ↔ IsDriven self.now (signal place) }
    {
        self.is_driven(firsts, place)
    }

    pub(crate) fn undriven_signal(&self, firsts: &[Option<usize>]) -> Option<usize>
        requires declared { Holds self.now Undeclared }
        requires firsts { AreFirstDrivers self.now (length self.now.drivers) firsts.now }
        ensures { IsFirstFailing (SignalPasses self.now NotDriven) self.now.signals result }
    {
        for i in 0..self.signals.len() {
            let _signal = self.signals.get(i);
            if !self.is_signal_driven(firsts, i) {
                return Some(i);
            }
        }
        None
    }

    fn needs_of(&self, alloc: Global, driver: Option<usize>) -> Result<Vec<usize>, AllocError>
        requires { (i : ℕ) → driver ≡ Some i → i < length self.now.drivers }
        ensures { IfOk result (λ v. v.items ≡ needs_at self.now driver) }
    {
        let Some(driver) = driver else {
            return Ok(Vec::new(alloc));
        };
        let driver = self.drivers.get(driver);
        if driver.is_register() {
            Ok(Vec::new(alloc))
        } else {
            Ok(driver.uses(alloc)?.names)
        }
    }

    // For each signal the signals whose words of a cycle its word of that cycle needs.
    fn needs(&self, alloc: Global, firsts: &[Option<usize>]) -> Result<Vec<Vec<usize>>, AllocError>
        requires { AreFirstDrivers self.now (length self.now.drivers) firsts.now }
        ensures { IfOk result (λ v. AreNeeds self.now firsts.now (graph_of v.items)) }
    {
        let mut needs = Vec::new(alloc);
        for i in 0..self.signals.len() {
            needs.push(self.needs_of(alloc, firsts[i])?)?;
        }
        Ok(needs)
    }

    // The components of signals that need one another.
    pub(crate) fn groups(
        &self,
        alloc: Global,
        firsts: &[Option<usize>],
    ) -> Result<Vec<Component>, AllocError>
        requires numbers { HasNumbers self.now }
        requires declared { Holds self.now Undeclared }
        requires firsts { AreFirstDrivers self.now (length self.now.drivers) firsts.now }
        requires once { Holds self.now DrivenTwice }
        ensures { IfOk result (λ cs. AreGroups self.now cs.items) }
    {
        components(alloc, &self.needs(alloc, firsts)?)
    }

    fn is_off_cycles(&self, groups: &[Component], driver: &Driver) -> bool
        requires groups { AreGroups self.now groups.now }
        requires names { Names self.now (target driver.now) }
        requires numbers { HasNumbers self.now }
        ensures { IsTrue result ↔ IsOffCycles self.now driver.now }
    {
        let slot = driver.slot(self.signals.len());
        !(slot < self.signals.len() && groups[slot].cyclic)
    }

    pub(crate) fn cyclic(
        &self,
        alloc: Global,
        firsts: &[Option<usize>],
    ) -> Result<Option<usize>, AllocError>
        requires numbers { HasNumbers self.now }
        requires declared { Holds self.now Undeclared }
        requires firsts { AreFirstDrivers self.now (length self.now.drivers) firsts.now }
        requires once { Holds self.now DrivenTwice }
        ensures first { IfOk result (IsFirstFailing (DriverPasses self.now Cyclic) self.now.drivers) }
        ensures ordered { IfOk result (λ place. place ≡ None → IsOrdered self.now) }
    {
        let groups = self.groups(alloc, firsts)?;
        for i in 0..self.drivers.len() {
            if !self.is_off_cycles(&groups, self.drivers.get(i)) {
                return Ok(Some(i));
            }
        }
        Ok(None)
    }

    fn are_inputs(&self, ports: &[usize]) -> bool
        requires { All (λ p. p < length self.now.ports) ports.now }
        ensures { IsTrue result ↔ All (λ p. IfSome (slice_get self.now.ports p) (λ q. q.dir ≡ Dir.In)) ports.now }
    {
        ports
            .iter()
            .all(|p| matches!(self.ports.get(*p).dir, Dir::In))
    }

    fn reads_inputs(&self, alloc: Global, driver: &Driver) -> Result<bool, AllocError>
        requires { IsDeclared self.now driver.now }
        ensures { IfOk result (λ b. IsTrue b ↔ ReadsInputs self.now driver.now) }
    {
        let uses = driver.uses(alloc)?;
        Ok(self.are_inputs(&uses.ports))
    }

    pub(crate) fn reads_output(&self, alloc: Global) -> Result<Option<usize>, AllocError>
        requires { Holds self.now Undeclared }
        ensures { IfOk result (IsFirstFailing (DriverPasses self.now ReadsOutput) self.now.drivers) }
    {
        for i in 0..self.drivers.len() {
            if !self.reads_inputs(alloc, self.drivers.get(i))? {
                return Ok(Some(i));
            }
        }
        Ok(None)
    }

    fn is_register(&self, driver: Option<usize>) -> bool
        requires { (i : ℕ) → driver ≡ Some i → i < length self.now.drivers }
        ensures { IsTrue result ↔ IsRegisterAt self.now driver }
    {
        match driver {
            Some(i) => self.drivers.get(i).is_register(),
            None => false,
        }
    }

    fn has_initial(&self, firsts: &[Option<usize>], place: usize, signal: &Signal) -> bool
        requires place { place < length self.now.signals }
        requires declared { Holds self.now Undeclared }
        requires firsts { AreFirstDrivers self.now (length self.now.drivers) firsts.now }
        requires once { Holds self.now DrivenTwice }
        ensures { IsTrue result ↔ HasInitial self.now place signal.now }
    {
        signal.initial.is_some() || !self.is_register(firsts[place])
    }

    pub(crate) fn no_initial(&self, firsts: &[Option<usize>]) -> Option<usize>
        requires declared { Holds self.now Undeclared }
        requires firsts { AreFirstDrivers self.now (length self.now.drivers) firsts.now }
        requires once { Holds self.now DrivenTwice }
        ensures { IsFirstFailing (SignalPasses self.now NoInitial) self.now.signals result }
    {
        for i in 0..self.signals.len() {
            if !self.has_initial(firsts, i, self.signals.get(i)) {
                return Some(i);
            }
        }
        None
    }

    fn choices_differ(&self, alloc: Global, driver: &Driver) -> Result<bool, AllocError>
        requires { WidthsAgree self.now driver.now }
        ensures { IfOk result (λ b. IsTrue b ↔ AddressesDiffer driver.now) }
    {
        match driver {
            Driver::Table {
                to: _,
                on: _,
                rows,
                other: _,
            } => addresses_differ(alloc, rows.as_slice()),
            _ => Ok(true),
        }
    }

    pub(crate) fn choice_twice(&self, alloc: Global) -> Result<Option<usize>, AllocError>
        requires { Holds self.now Width }
        ensures { IfOk result (IsFirstFailing (DriverPasses self.now ChoiceTwice) self.now.drivers) }
    {
        for i in 0..self.drivers.len() {
            if !self.choices_differ(alloc, self.drivers.get(i))? {
                return Ok(Some(i));
            }
        }
        Ok(None)
    }

    pub(crate) fn bad_enable(&self) -> Option<usize>
        requires { Holds self.now Undeclared }
        ensures { IsFirstFailing (PortPasses self.now BadEnable) self.now.ports result }
    {
        match self.enable {
            Some(port) if !self.ports.get(port).is_for_enable() => Some(port),
            _ => None,
        }
    }
}

fn rows_have(rows: &[(Word, Word)], address: u32, width: u32) -> bool
    ensures { IsTrue result ↔ All (λ r. (length r.0 ≡ address) × (length r.1 ≡ width)) rows.now }
{
    rows.iter()
        .all(|(a, w)| a.width() == address && w.width() == width)
}

// Whether the rows and the other word of a table have these widths, where the address has one.
fn rows_agree(rows: &[(Word, Word)], other: Word, address: Option<u32>, width: u32) -> bool
    ensures { IsTrue result ↔ All (λ r. (address ≡ Some (length r.0)) × (length r.1 ≡ width)) rows.now × IsSome address × (length other ≡ width) }
{
    match address {
        Some(address) => rows_have(rows, address, width) && other.width() == width,
        None => false,
    }
}
