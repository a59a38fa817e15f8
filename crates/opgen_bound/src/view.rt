//! What each pass knows of the shared bound, and how each atomic step changes that; used by contracts only.
use atomic_table::{Join, Play, Split, TableRule};

/// What a pass knows of its bound. Contracts alone speak of it: no value of it is made.
pub struct View {
    /// The least cost that the pass published, or `u64::MAX` for none.
    pub published: u64,
    /// The least cost that the pass has seen.
    pub seen: u64,
    /// The pass's part of the whole, which is 2^32.
    pub share: u64,
    /// The cost that the bound began with.
    pub start: u64,
}

pub struct BoundRule;

impl TableRule<u8, View, u64> for BoundRule {
    ghost use Rattle.opgen_bound.specs.Rule.{IsBound};
    ghost use Rattle.opgen_bound.specs.Steps.{root};

    ghost holds = { λ start s. IsBound _ start s };

    ghost first = { root };
}

pub struct Look;

impl Play<u8, View> for Look {
    ghost use Rattle.opgen_bound.specs.Steps.{Looks};

    ghost then = { λ _ me found next. Looks me found next };
}

pub struct Publish;

impl Play<u8, View> for Publish {
    ghost use Rattle.opgen_bound.specs.Steps.{Publishes};

    ghost then = { λ step me found next. Publishes step.first me found next };
}

pub struct Halve;

impl Split<View> for Halve {
    ghost use Rattle.opgen_bound.specs.Steps.{kept, given};

    ghost left = { kept };

    ghost right = { given };
}

pub struct Merge;

impl Join<View> for Merge {
    ghost use Rattle.opgen_bound.specs.Views.{spent};
    ghost use Rattle.opgen_bound.specs.Steps.{joined};

    ghost both = { joined };

    ghost spent = { spent };
}
