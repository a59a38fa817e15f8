//! The versions of documents, which differ in their keys and ranges.
ghost use Rattle.std.specs.Prelude.{◌≡◌};
ghost use Rattle.toml.specs.View.{table_view};
ghost use Rattle.opgen_document.specs.Document.{version_in, version_of, version_number, has_key};

use crate::document::number_at;
use crate::key::{Key, Version};
use toml::Table;

fn version_in(found: i64) -> Version
    ensures { result ≡ version_in found }
{
    if found == 1 {
        Version::First
    } else if found == 2 {
        Version::Second
    } else if found == 3 {
        Version::Third
    } else {
        Version::Fourth
    }
}

/// The version of a document. One that is missing, of another type or unknown counts as the latest.
pub fn version_of(table: &Table) -> Version
    ensures { result ≡ version_of (table_view table.now) }
{
    version_in(number_at(table, Key::Version))
}

impl Version {
    // The number of the version.
    fn number(self) -> u32
        ensures { result ≡ version_number self }
    {
        match self {
            Version::First => 1,
            Version::Second => 2,
            Version::Third => 3,
            Version::Fourth => 4,
        }
    }

    /// Whether the version has the key, in documents of some kind.
    pub fn has_key(self, key: Key) -> bool
        ensures { result ≡ has_key self key }
    {
        self.number() >= key.row().since.number()
    }
}
