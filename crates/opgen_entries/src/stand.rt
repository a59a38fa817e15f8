//! Which keys may and have to stand in a document of a kind.
ghost use Rattle.std.specs.Prelude.{◌≡◌};
ghost use Rattle.std.specs.List.{list_all};
ghost use Rattle.opgen_document.specs.Keys.{has_to_be};
ghost use Rattle.opgen_entries.specs.Stands.{stand_in, may_stand, is_needed, is_known};

use crate::kinds;
use crate::kinds::kinds_of;
use opgen_document::{Key, Stand, Version, shared_stand};
use opgen_operator::Kind;

// How a key stands in documents of a version and a kind.
#[tactic(auto, unfolding(crate::specs::kinds::entry))]
fn stand_in(version: Version, kind: Kind, key: Key) -> Stand
    ensures { result ≡ stand_in version kind key }
{
    match shared_stand(key) {
        Some(stand) => stand,
        None => kinds::stand(version, kind, key),
    }
}

// Whether the key may stand there. If there is no kind, every key of the version may.
fn may_stand(version: Version, kind: Option<Kind>, key: Key) -> bool
    ensures { result ≡ may_stand version kind key }
{
    match kind {
        Some(kind) => stand_in(version, kind, key).may_be(),
        None => version.has_key(key),
    }
}

/// Whether one of the keys has the name, and a document of the version and the kind has that key.
/// If there is no kind, every key of the version is known.
pub fn is_known(keys: &[Key], version: Version, kind: Option<Kind>, name: &str) -> bool
    ensures { result ≡ is_known keys.now version kind name.now }
{
    keys.iter()
        .any(|key| may_stand(version, kind, *key) && key.name() == name)
}

fn all_need(version: Version, kinds: &[Kind], key: Key) -> bool
    ensures { result ≡ list_all (λ one. has_to_be (stand_in version one key)) kinds.now }
{
    kinds
        .iter()
        .all(|kind| stand_in(version, *kind, key).has_to_be())
}

/// Whether the key has to stand there. Where there is no kind, only the keys that all kinds need have to.
pub fn is_needed(version: Version, kind: Option<Kind>, key: Key) -> bool
    ensures { result ≡ is_needed version kind key }
{
    match kind {
        Some(kind) => stand_in(version, kind, key).has_to_be(),
        None => all_need(version, kinds_of(version), key),
    }
}
