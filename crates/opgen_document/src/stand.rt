//! How a key stands in a document, whatever its kind.
ghost use Rattle.std.specs.Prelude.{◌≡◌};
ghost use Rattle.opgen_document.specs.Keys.{shared_stand, may_be, has_to_be};
ghost use Rattle.opgen_document.specs.Document.{since_second, since_third, since_fourth, needed_before_third};

use crate::key::{Key, Stand, Version};

impl Stand {
    /// How a key stands that may be left out and that version 1 does not have.
    pub fn since_second(version: Version) -> Stand
        ensures { result ≡ since_second version }
    {
        match version {
            Version::First => Stand::Absent,
            Version::Second | Version::Third | Version::Fourth => Stand::Optional,
        }
    }

    /// How a key stands that may be left out and that versions 1 and 2 do not have.
    pub fn since_third(version: Version) -> Stand
        ensures { result ≡ since_third version }
    {
        match version {
            Version::First | Version::Second => Stand::Absent,
            Version::Third | Version::Fourth => Stand::Optional,
        }
    }

    /// How a key stands that may be left out and that version 4 alone has.
    pub fn since_fourth(version: Version) -> Stand
        ensures { result ≡ since_fourth version }
    {
        match version {
            Version::First | Version::Second | Version::Third => Stand::Absent,
            Version::Fourth => Stand::Optional,
        }
    }

    /// How a key stands that may be left out from version 3 on.
    pub fn needed_before_third(version: Version) -> Stand
        ensures { result ≡ needed_before_third version }
    {
        match version {
            Version::First | Version::Second => Stand::Needed,
            Version::Third | Version::Fourth => Stand::Optional,
        }
    }

    /// Whether the key may be there.
    pub fn may_be(self) -> bool
        ensures { result ≡ may_be self }
    {
        match self {
            Stand::Absent => false,
            Stand::Optional | Stand::Needed => true,
        }
    }

    /// Whether the key has to be there.
    pub fn has_to_be(self) -> bool
        ensures { result ≡ has_to_be self }
    {
        match self {
            Stand::Absent | Stand::Optional => false,
            Stand::Needed => true,
        }
    }
}

/// How a key stands that documents of all kinds have, or the tables of an array.
pub fn shared_stand(key: Key) -> Option<Stand>
    ensures { result ≡ shared_stand key }
{
    key.row().stand
}
