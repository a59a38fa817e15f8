//! The kinds of operators.
ghost use Rattle.std.specs.Prelude.{◌≡◌};
ghost use Rattle.opgen_operator.specs.Operator.{kind_name};

/// The kinds of operators.
#[derive(Clone, Copy, Debug, PartialEq, Eq)]
pub enum Kind {
    Scale,
    Fir,
    Multiply,
    Divide,
    Root,
    Mcm,
    Constdiv,
    Poly,
    Tfir,
    Sop,
}

impl Kind {
    /// The kind as a document writes it.
    pub fn name(self) -> &'static str
        ensures { result.now ≡ kind_name self }
    {
        match self {
            Kind::Scale => "scale",
            Kind::Fir => "fir",
            Kind::Multiply => "multiply",
            Kind::Divide => "divide",
            Kind::Root => "root",
            Kind::Mcm => "mcm",
            Kind::Constdiv => "constdiv",
            Kind::Poly => "poly",
            Kind::Tfir => "tfir",
            Kind::Sop => "sop",
        }
    }
}
