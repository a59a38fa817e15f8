//! The keys of a specification: their names, order and types; versions of documents, and how a key stands in one.
ghost use Rattle.std.specs.Prelude.{◌≡◌, Some, None};
ghost use Rattle.opgen_document.specs.declared.key.Version.TheVariants.{First};
ghost use Rattle.opgen_document.specs.declared.key.Stand.TheVariants.{Optional, Needed};
ghost use Rattle.opgen_document.specs.Keys.{row_of, key_name, document_keys};

use std::fmt;

/// The version whose keys and ranges a document has.
#[derive(Clone, Copy, Debug)]
pub enum Version {
    First,
    Second,
    Third,
    /// A document of it is rejected if its circuit is of a sort that is not made yet.
    Fourth,
}

/// How a key stands in a document.
#[derive(Clone, Copy)]
pub enum Stand {
    Absent,
    Optional,
    Needed,
}

/// The keys of a document in the order in which they are judged, and then those of the tables of its
/// arrays.
#[derive(Clone, Copy, Debug)]
pub enum Key {
    Version,
    Name,
    Kind,
    Exact,
    Rounding,
    Target,
    Period,
    Signed,
    Width,
    Lsb,
    WidthA,
    LsbA,
    WidthB,
    LsbB,
    OutLsb,
    OutWidth,
    OutSigned,
    Overflow,
    Coefficients,
    Denominator,
    Constants,
    Extra,
    Divisor,
    Taps,
    Compressor,
    Recurrence,
    Lut,
    Offset,
    Input,
    Scaled,
    Product,
    Delay,
    /// The four keys of an input.
    InputName,
    InputSigned,
    InputWidth,
    InputLsb,
    /// The two keys of a constant times an input.
    ScaledInput,
    Coefficient,
    /// The three keys of a product of inputs.
    FactorA,
    FactorB,
    Negative,
    /// The three keys of a delay line.
    Class,
    Base,
    PerBit,
}

/// What the value at a key has to be.
#[derive(Clone, Copy)]
pub(crate) enum Sort {
    Number,
    Text,
    Flag,
    /// An array of whole numbers, or of decimal texts.
    Coefficients,
    Numbers,
    Tables,
}

/// What holds of a key in documents of every kind.
#[derive(Clone, Copy)]
pub(crate) struct Row {
    /// The key as a document writes it.
    pub(crate) name: &'static str,
    pub(crate) sort: Sort,
    /// The first version whose documents may have it if they name no kind.
    pub(crate) since: Version,
    /// How it stands in documents of all kinds, or in the lines of its array. None if each kind says it.
    pub(crate) stand: Option<Stand>,
}

static DOCUMENT_KEYS: [Key; 32] = [
    Key::Version,
    Key::Name,
    Key::Kind,
    Key::Exact,
    Key::Rounding,
    Key::Target,
    Key::Period,
    Key::Signed,
    Key::Width,
    Key::Lsb,
    Key::WidthA,
    Key::LsbA,
    Key::WidthB,
    Key::LsbB,
    Key::OutLsb,
    Key::OutWidth,
    Key::OutSigned,
    Key::Overflow,
    Key::Coefficients,
    Key::Denominator,
    Key::Constants,
    Key::Extra,
    Key::Divisor,
    Key::Taps,
    Key::Compressor,
    Key::Recurrence,
    Key::Lut,
    Key::Offset,
    Key::Input,
    Key::Scaled,
    Key::Product,
    Key::Delay,
];

/// The keys of a document, in the order in which they are judged.
pub fn document_keys() -> &'static [Key]
    ensures { result.now ≡ document_keys }
{
    &DOCUMENT_KEYS
}

// A key that each document has to have, or each line of its array.
fn needed(name: &'static str, sort: Sort) -> Row
    ensures name { result.name.now ≡ name.now }
    ensures sort { result.sort ≡ sort }
    ensures since { result.since ≡ First }
    ensures stand { result.stand ≡ Some Needed }
{
    Row {
        name,
        sort,
        since: Version::First,
        stand: Some(Stand::Needed),
    }
}

// A key that each may have.
fn optional(name: &'static str, sort: Sort) -> Row
    ensures name { result.name.now ≡ name.now }
    ensures sort { result.sort ≡ sort }
    ensures since { result.since ≡ First }
    ensures stand { result.stand ≡ Some Optional }
{
    Row {
        name,
        sort,
        since: Version::First,
        stand: Some(Stand::Optional),
    }
}

// A key that documents of some kinds have.
fn by_kind(since: Version, name: &'static str, sort: Sort) -> Row
    ensures name { result.name.now ≡ name.now }
    ensures sort { result.sort ≡ sort }
    ensures since { result.since ≡ since }
    ensures stand { result.stand ≡ None }
{
    Row {
        name,
        sort,
        since,
        stand: None,
    }
}

impl Key {
    // Each key in the order in which keys are judged.
    pub(crate) fn row(self) -> Row
        ensures name { result.name.now ≡ (row_of self).name }
        ensures sort { result.sort ≡ (row_of self).sort }
        ensures since { result.since ≡ (row_of self).since }
        ensures stand { result.stand ≡ (row_of self).stand }
    {
        match self {
            Key::Version => needed("version", Sort::Number),
            Key::Name => needed("name", Sort::Text),
            Key::Kind => needed("kind", Sort::Text),
            Key::Exact => needed("exact", Sort::Flag),
            Key::Rounding => by_kind(Version::Fourth, "rounding", Sort::Text),
            Key::Target => needed("target", Sort::Text),
            Key::Period => needed("period", Sort::Number),
            Key::Signed => by_kind(Version::First, "signed", Sort::Flag),
            Key::Width => by_kind(Version::First, "width", Sort::Number),
            Key::Lsb => by_kind(Version::First, "lsb", Sort::Number),
            Key::WidthA => by_kind(Version::First, "width_a", Sort::Number),
            Key::LsbA => by_kind(Version::First, "lsb_a", Sort::Number),
            Key::WidthB => by_kind(Version::First, "width_b", Sort::Number),
            Key::LsbB => by_kind(Version::First, "lsb_b", Sort::Number),
            Key::OutLsb => by_kind(Version::First, "out_lsb", Sort::Number),
            Key::OutWidth => by_kind(Version::Third, "out_width", Sort::Number),
            Key::OutSigned => by_kind(Version::Third, "out_signed", Sort::Flag),
            Key::Overflow => by_kind(Version::Fourth, "overflow", Sort::Text),
            Key::Coefficients => by_kind(Version::First, "coefficients", Sort::Coefficients),
            Key::Denominator => by_kind(Version::First, "denominator", Sort::Number),
            Key::Constants => by_kind(Version::First, "constants", Sort::Numbers),
            Key::Extra => by_kind(Version::First, "extra", Sort::Number),
            Key::Divisor => by_kind(Version::First, "divisor", Sort::Number),
            Key::Taps => by_kind(Version::First, "taps", Sort::Numbers),
            Key::Compressor => by_kind(Version::First, "compressor", Sort::Text),
            Key::Recurrence => by_kind(Version::Fourth, "recurrence", Sort::Text),
            Key::Lut => by_kind(Version::Fourth, "lut", Sort::Number),
            Key::Offset => by_kind(Version::Third, "offset", Sort::Number),
            Key::Input => by_kind(Version::Third, "input", Sort::Tables),
            Key::Scaled => by_kind(Version::Third, "scaled", Sort::Tables),
            Key::Product => by_kind(Version::Third, "product", Sort::Tables),
            Key::Delay => optional("delay", Sort::Tables),
            Key::InputName => needed("name", Sort::Text),
            Key::InputSigned => needed("signed", Sort::Flag),
            Key::InputWidth => needed("width", Sort::Number),
            Key::InputLsb => needed("lsb", Sort::Number),
            Key::ScaledInput => needed("input", Sort::Text),
            Key::Coefficient => needed("coefficient", Sort::Number),
            Key::FactorA => needed("a", Sort::Text),
            Key::FactorB => needed("b", Sort::Text),
            Key::Negative => optional("negative", Sort::Flag),
            Key::Class => needed("class", Sort::Text),
            Key::Base => needed("base", Sort::Number),
            Key::PerBit => needed("per_bit", Sort::Number),
        }
    }

    /// The key as a document writes it.
    pub fn name(self) -> &'static str
        ensures { result.now ≡ key_name self }
    {
        self.row().name
    }
}

impl fmt::Display for Key {
    ghost output = { λ key. Some (key_name key) };

    fn fmt<W: fmt::Write>(&self, f: &mut fmt::Formatter<W>) -> fmt::Result {
        f.write_str(self.name())
    }
}
