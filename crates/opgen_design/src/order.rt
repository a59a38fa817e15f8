//! Finds an order in which the drivers of a design can be evaluated within a clock cycle.
ghost use Rattle.std.specs.Prelude.{◌≡◌, ◌++◌, ◌<◌, ◌^◌, [], ◌∷◌, if◌then◌else◌, IfOk, OnOk, length, slice_index};
ghost use Rattle.opgen_components.specs.Graph.{component_of};
ghost use Rattle.opgen_design.specs.Order.{is_register, AreRanks, IsOrderOf, IsSmallAt, rank_at, waiting};
ghost use Rattle.opgen_design.specs.Rules.{AreGroups};
ghost use Rattle.opgen_design.specs.declared.sound.Rule.TheVariants.{Undeclared};
ghost use Rattle.opgen_design.specs.Sound.{Holds, HasNumbers, IsSound, Names, target};

use crate::{Design, Driver, Target};
use opgen_components::Component;
use opgen_num::Memory;
use std::alloc::{AllocError, Global};

// The rank of a driver's place.
fn rank_of(ranks: &[u128], place: usize) -> u128
    ensures { result ≡ slice_index ranks.now place }
{
    ranks.get(place).copied().unwrap_or(0)
}

// The number of a signal's group.
fn number_of(groups: &[Component], signal: usize) -> u128
    requires { signal < length groups.now }
    ensures number { result ≡ (component_of groups.now signal).number }
    ensures small { result < 2 ^ 64 }
{
    groups[signal].number as u128
}

// Appends a driver's place, unless it is a register.
fn add_waiting(found: &mut Vec<usize>, driver: &Driver, place: usize) -> Result<(), AllocError>
    ensures { OnOk result (found.new.items ≡ found.old.items ++ (if is_register driver.now then [] else place ∷ [])) }
{
    if !driver.is_register() {
        found.push(place)?;
    }
    Ok(())
}

impl Design {
    // The number of the group of a driver's signal, and for a port more than all those.
    fn rank(&self, groups: &[Component], driver: &Driver) -> u128
        requires groups { AreGroups self.now groups.now }
        requires names { Names self.now (target driver.now) }
        ensures rank { result ≡ rank_at groups.now (target driver.now) }
        ensures small { IsSmallAt groups.now (target driver.now) }
    {
        match driver.target() {
            Target::Signal(signal) => number_of(groups, signal),
            Target::Port(_) => 1 << 64,
        }
    }

    fn ranks(&self, alloc: Global, groups: &[Component]) -> Result<Vec<u128>, AllocError>
        requires groups { AreGroups self.now groups.now }
        requires declared { Holds self.now Undeclared }
        ensures { IfOk result (λ v. AreRanks self.now groups.now (length self.now.drivers) v.items) }
    {
        let mut ranks = Vec::new(alloc);
        for i in 0..self.drivers.len() {
            ranks.push(self.rank(groups, self.drivers.get(i)))?;
        }
        Ok(ranks)
    }

    // The places of the drivers that are no registers.
    fn waiting(&self, alloc: Global) -> Result<Vec<usize>, AllocError>
        ensures { IfOk result (λ v. v.items ≡ waiting 0 self.now.drivers) }
    {
        let mut found = Vec::new(alloc);
        for i in 0..self.drivers.len() {
            add_waiting(&mut found, self.drivers.get(i), i)?;
        }
        Ok(found)
    }

    /// The places of the drivers that are no registers in an order in which they can be evaluated: each comes after those of the
    /// signals that it reads, unless registers drive these.
    pub fn order(&self, alloc: Global) -> Result<Vec<usize>, Memory>
        requires sound { IsSound self.now }
        requires numbers { HasNumbers self.now }
        ensures { IfOk result (λ v. IsOrderOf self.now v.items) }
    {
        let firsts = self.first_drivers(alloc)?;
        let groups = self.groups(alloc, &firsts)?;
        let ranks = self.ranks(alloc, &groups)?;
        let ranks = ranks.as_slice();
        let mut order = self.waiting(alloc)?;
        order.sort_by_key(|place| rank_of(ranks, *place))?;
        Ok(order)
    }
}
