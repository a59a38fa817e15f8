//! The numbers that stand while a graph grows, with a mark for each.
ghost use Rattle.std.specs.Prelude.{◌≡◌, ℕ, ◌+◌, ◌≤◌, ◌<◌, ◌^◌, ◌↔◌, ◌∷◌, ◌++◌, [], length, max, Contains, IfOk, OnOk, IsTrue};
ghost use Rattle.opgen_graph.specs.Adders.{Makes};
ghost use Rattle.opgen_graph.specs.Reach.{IsWide, IsWideMember};
ghost use Rattle.opgen_shared.specs.Levels.{level};
ghost use Rattle.opgen_shared.specs.Sums.{AreSums, placed_by};

use opgen_graph::Adder;
use opgen_list::Items;
use std::alloc::{AllocError, Global};

/// Numbers are below this.
pub(crate) const LIMIT: u32 = 2097152;

// The adders so far, and the level of each number below the limit: 0 where it does not stand, 1 of the number 1, and one more
// than the higher of its operands for an adder's value, at most 255.
#[derive(Drop)]
pub(crate) struct Sums {
    pub(crate) adders: Items<Adder>,
    pub(crate) levels: Vec<u8>,
}

// No adders, and 1.
pub(crate) fn first_sums(alloc: Global) -> Result<Sums, AllocError>
    ensures sums { IfOk result (λ s. AreSums s.adders s.levels.items) }
    ensures none { IfOk result (λ s. s.adders ≡ []) }
{
    let mut levels = vec![in alloc; 0; LIMIT as usize]?;
    levels[1] = 1;
    Ok(Sums {
        adders: Items::new(alloc),
        levels,
    })
}

// The level of a number.
fn level_of(sums: &Sums, number: u32) -> u8
    requires sums { AreSums sums.now.adders sums.now.levels.items }
    requires number { number < 2 ^ 21 }
    ensures { result ≡ level sums.now.adders number }
{
    sums.levels[number as usize]
}

// Whether a number stands.
pub(crate) fn stands(sums: &Sums, number: u32) -> bool
    requires sums { AreSums sums.now.adders sums.now.levels.items }
    requires number { number < 2 ^ 21 }
    ensures stands { IsTrue result ↔ Contains (placed_by sums.now.adders) number }
    ensures level { IsTrue result ↔ (0 < level sums.now.adders number) }
{
    sums.levels[number as usize] > 0
}

// The higher level of an adder's operands.
pub(crate) fn operand_level(sums: &Sums, adder: Adder) -> u8
    requires sums { AreSums sums.now.adders sums.now.levels.items }
    requires u { IsWide adder.u }
    requires v { IsWide adder.v }
    ensures { result ≡ max (level sums.now.adders adder.u) (level sums.now.adders adder.v) }
{
    level_of(sums, adder.u).max(level_of(sums, adder.v))
}

// Appends an adder of a new number.
pub(crate) fn place(sums: &mut Sums, adder: Adder) -> Result<(), AllocError>
    requires sums { AreSums sums.old.adders sums.old.levels.items }
    requires value { IsWideMember adder.value }
    requires new { Contains (placed_by sums.old.adders) adder.value → ⊥ }
    requires u { Contains (placed_by sums.old.adders) adder.u }
    requires v { Contains (placed_by sums.old.adders) adder.v }
    requires shifted { 1 ≤ adder.step.shift }
    requires makes { Makes adder.step.form adder.step.shift adder.u adder.v adder.value }
    ensures sums { OnOk result (AreSums sums.new.adders sums.new.levels.items) }
    ensures adders { OnOk result (sums.new.adders ≡ sums.old.adders ++ adder ∷ []) }
{
    let level = operand_level(sums, adder).saturating_add(1);
    sums.adders.push(adder)?;
    sums.levels[adder.value as usize] = level;
    Ok(())
}
