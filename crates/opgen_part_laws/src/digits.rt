//! Laws of signed digits and of the digits of quotients and roots.
ghost use Rattle.opgen_csd.specs.Laws.{SomeForm, OneForm, FewestNonzeros, PartialsStepUp, PartialsEndInNumber};
ghost use Rattle.opgen_digits.specs.Digit.{DigitsAreRight};

/// Each whole number has one canonical form and no other.
pub fn one_form()
    ensures some { SomeForm }
    ensures one { OneForm }
{}

/// No digits of the same value have fewer that are not zero.
pub fn fewest_nonzeros()
    ensures { FewestNonzeros }
{}

/// Each partial sum of an odd number is odd, above 1, at most the number, and a power of two more or less than
/// a smaller one or than 1.
pub fn partials_step_up()
    ensures { PartialsStepUp }
{}

/// An odd number above 1 is one of its own partial sums.
pub fn partials_end_in_number()
    ensures { PartialsEndInNumber }
{}

/// The digit that is tried is 1 where the number is not less than what it takes off, and what is
/// kept is what is left.
pub fn digits_are_right()
    ensures { DigitsAreRight }
{}
