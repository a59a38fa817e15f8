//! The arrays of tables that a document may have, and the keys of their tables.
ghost use Rattle.std.specs.Prelude.{◌≡◌};
ghost use Rattle.opgen_document.specs.Keys.{arrays, array_key, line_keys};

use crate::key::Key;

/// An array of tables, in the order in which they are judged.
#[derive(Clone, Copy, Debug)]
pub enum Array {
    /// The inputs of a sum of products.
    Input,
    /// Its constants times inputs.
    Scaled,
    /// Its products of inputs.
    Product,
    /// Delay lines.
    Delay,
}

static ARRAYS: [Array; 4] = [Array::Input, Array::Scaled, Array::Product, Array::Delay];

static INPUT_KEYS: [Key; 4] = [
    Key::InputName,
    Key::InputSigned,
    Key::InputWidth,
    Key::InputLsb,
];

static SCALED_KEYS: [Key; 2] = [Key::ScaledInput, Key::Coefficient];

static PRODUCT_KEYS: [Key; 3] = [Key::FactorA, Key::FactorB, Key::Negative];

static DELAY_KEYS: [Key; 3] = [Key::Class, Key::Base, Key::PerBit];

/// The arrays, in the order in which they are judged.
pub fn arrays() -> &'static [Array]
    ensures { result.now ≡ arrays }
{
    &ARRAYS
}

impl Array {
    /// The key of the array in the document.
    pub fn key(self) -> Key
        ensures { result ≡ array_key self }
    {
        match self {
            Array::Input => Key::Input,
            Array::Scaled => Key::Scaled,
            Array::Product => Key::Product,
            Array::Delay => Key::Delay,
        }
    }

    /// The keys of each of its tables, in the order in which they are judged.
    pub fn line_keys(self) -> &'static [Key]
        ensures { result.now ≡ line_keys self }
    {
        match self {
            Array::Input => &INPUT_KEYS,
            Array::Scaled => &SCALED_KEYS,
            Array::Product => &PRODUCT_KEYS,
            Array::Delay => &DELAY_KEYS,
        }
    }
}
