//! Worked examples that the prover computes: the definitions give the same nets, designs and outputs as were found by hand.
ghost use Rattle.test_commands.specs.Operators.{Operators};
ghost use Rattle.test_commands.specs.TimesThree.{TimesThree};

/// The definitions of nets and designs give what was worked out by hand for three times a bit.
pub fn definitions_compute()
    ensures { TimesThree }
{}

/// The definitions of operators give what was worked out by hand for one of each shape.
pub fn operators_compute()
    ensures { Operators }
{}
