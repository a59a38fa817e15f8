//! Laws of operators: their values, widths and columns stay within stated bounds.
ghost use Rattle.opgen_budget.specs.Columns.{HasColumns};
ghost use Rattle.opgen_operator.specs.Bounded.{LimitsAreWithin, OutputsAreWide, ShiftsAreSmall, ExactValuesAreIn128, ValidAreAccepted, AcceptedHaveRoom};
ghost use Rattle.opgen_kinds.specs.Poly.{PolynomialsHaveRoom};
ghost use Rattle.opgen_kinds.specs.Product.{ProductsReach};
ghost use Rattle.opgen_kinds.specs.Single.{RootsAreNarrow};
ghost use Rattle.opgen_kinds.specs.Sum.{SumsReach};
ghost use Rattle.opgen_kinds.specs.Taps.{TapsHaveRoom};
ghost use Rattle.opgen_operator.specs.PortNames.{FittingNetsAreNamed};
ghost use Rattle.opgen_part_laws.specs.WholeCoefficients.{MultiplesAreLeast, TapsAreDirect, TapsAreLeast};

/// How many bits each column of a product has.
pub fn columns_have_bits()
    ensures { HasColumns }
{}

/// The output of a sum goes from the floor of its least exact value to the ceiling of its greatest.
pub fn sums_reach()
    ensures { SumsReach }
{}

/// The output of a product goes from the floor of its least exact value to the ceiling of its
/// greatest.
pub fn products_reach()
    ensures { ProductsReach }
{}

/// No version has inputs or signals of more bits than the program's.
pub fn limits_are_within()
    ensures { LimitsAreWithin }
{}

/// Each output port of a valid specification has 1 to 64 bits in version 1, and 1 to 96 in later versions.
pub fn outputs_are_wide()
    ensures { OutputsAreWide }
{}

/// The shift of a valid specification is from -48 to 48, for sums up to 32 after version 1, for
/// transposed filters up to 0, from 0 on for quotients and roots, and 0 for the kinds that have none.
pub fn shifts_are_small()
    ensures { ShiftsAreSmall }
{}

/// In every cycle, the exact values of a valid specification are fractions of numbers of 128 bits.
///
/// The shift is in them. The numbers lie strictly between -2^127 and 2^127, and so do the dividend
/// of a quotient and the square of a root.
pub fn exact_values_are_in_128()
    ensures { ExactValuesAreIn128 }
{}

/// The operator of a valid specification is accepted, which is what builders of nets ask for.
pub fn valid_are_accepted()
    ensures { ValidAreAccepted }
{}

/// The input and a shift up of an accepted sum have 80 bits together at most.
pub fn accepted_have_room()
    ensures { AcceptedHaveRoom }
{}

/// The widest signal of a root is within the limit of each version.
pub fn roots_are_narrow()
    ensures { RootsAreNarrow }
{}

/// The numbers of a polynomial have 54 bits at most, and its heaps 70.
pub fn polynomials_have_room()
    ensures { PolynomialsHaveRoom }
{}

/// The output of whole taps has 29 bits more than the input at most.
pub fn taps_have_room()
    ensures { TapsHaveRoom }
{}

/// The outputs of several constants have the least formats that hold their exact values.
pub fn multiples_are_least()
    ensures { MultiplesAreLeast }
{}

/// The output of a transposed filter has the least format that holds its exact values, rounded down
/// and up.
pub fn taps_are_least()
    ensures { TapsAreLeast }
{}

/// A transposed filter has the ports and the exact values of the direct filter with its taps as
/// coefficients, of denominator 1, with outputs in the same units. In units of the input's last place
/// the exact values are the sums themselves.
pub fn taps_are_direct()
    ensures { TapsAreDirect }
{}

/// A net that fits a specification whose operator has its fields in range has ports that a design may
/// have, whatever allowed name the design has.
pub fn fitting_nets_are_named()
    ensures { FittingNetsAreNamed }
{}
