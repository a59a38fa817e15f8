//! Which of several nets is made of an operator, all of which are good.
ghost use Rattle.std.specs.Prelude.{◌≡◌};
ghost use Rattle.opgen_ports.specs.Recipes.{compressor_of, has_counters, is_dadda, is_of_bits, is_restoring, is_third};

/// How the bits or rows of a sum are brought to one word.
#[derive(Clone, Copy, Debug, PartialEq, Eq)]
pub enum Compressor {
    /// The bits of a heap, by full and half adders, as in Dadda's trees.
    Dadda,
    /// The bits of a heap, by larger counters and then as in Dadda's trees.
    Counters,
    /// Rows, which are added in pairs.
    Rows,
}

/// How the digits of a quotient are found.
#[derive(Clone, Copy, Debug, PartialEq, Eq)]
pub enum Recurrence {
    /// A difference below 0 is not kept.
    Restoring,
    /// The divisor is added where the remainder before is below 0, and subtracted elsewhere.
    Nonrestoring,
}

/// The version of specifications since which a net is made so.
#[derive(Clone, Copy, Debug, PartialEq, Eq)]
pub enum Recipe {
    /// As in versions 1 to 3.
    Third,
    /// As in version 4.
    Fourth,
}

impl Compressor {
    /// The compressor of a heap of bits, with larger counters or without.
    pub fn of_bits(counters: bool) -> Self
        ensures { result ≡ compressor_of counters }
    {
        if counters {
            Self::Counters
        } else {
            Self::Dadda
        }
    }

    /// Whether larger counters go before the compression of a heap.
    pub fn has_counters(self) -> bool
        ensures { result ≡ has_counters self }
    {
        match self {
            Self::Counters => true,
            Self::Dadda | Self::Rows => false,
        }
    }

    /// Whether what is added up is a heap of bits, and there are no larger counters.
    pub fn is_dadda(self) -> bool
        ensures { result ≡ is_dadda self }
    {
        match self {
            Self::Dadda => true,
            Self::Counters | Self::Rows => false,
        }
    }

    /// Whether what is added up is a heap of bits.
    pub fn is_of_bits(self) -> bool
        ensures { result ≡ is_of_bits self }
    {
        match self {
            Self::Dadda | Self::Counters => true,
            Self::Rows => false,
        }
    }
}

impl Recurrence {
    /// Whether a difference below 0 is not kept.
    pub fn is_restoring(self) -> bool
        ensures { result ≡ is_restoring self }
    {
        match self {
            Self::Restoring => true,
            Self::Nonrestoring => false,
        }
    }
}

impl Recipe {
    /// Whether a net is made as in versions 1 to 3.
    pub fn is_third(self) -> bool
        ensures { result ≡ is_third self }
    {
        match self {
            Self::Third => true,
            Self::Fourth => false,
        }
    }
}
