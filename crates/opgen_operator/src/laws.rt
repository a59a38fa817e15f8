//! Laws of specifications: which values output formats hold, on which cycles good outputs depend, and that widths, shifts and exact values are bounded.
ghost use Rattle.opgen_operator.specs.Bounded.{InputsAreWide};
ghost use Rattle.opgen_operator.specs.Held.{OutputsHold, OutputsRecall};
ghost use Rattle.opgen_kinds.specs.Product.{ProductsHaveWidth};
ghost use Rattle.opgen_kinds.specs.Sum.{EntriesAreSmall};

/// The operators' own formats hold sums, products and quotients rounded down or up, multiples,
/// remainders, and roots and quotients by small constants rounded down.
pub fn outputs_hold()
    ensures { OutputsHold }
{}

/// Good outputs depend on the inputs of the last cycle and of as many before it as the operator's kind says alone: of
/// filters one less than there are coefficients or taps, of all others none.
pub fn outputs_recall()
    ensures { OutputsRecall }
{}

/// Each input port of a valid specification has 1 to 32 bits in version 1, and 1 to 48 in later versions.
pub fn inputs_are_wide()
    ensures { InputsAreWide }
{}

/// The entries of tables of an accepted sum have 122 bits at most, 12 of them guard bits.
pub fn entries_are_small()
    ensures { EntriesAreSmall }
{}

/// The range of a product passes 128 bits only where it is shifted up, and how wide its output is there.
pub fn products_have_width()
    ensures { ProductsHaveWidth }
{}
