//! Declared ports and signals in order, which are looked up by number or by hashing their names.

ghost use Rattle.std.specs.Prelude.{◌≡◌, ◌≤◌, IfOk, List, ℕ, ◌++◌, ◌∷◌, [], length};
ghost use Rattle.std.specs.Str.{bytes_eq};
ghost use Rattle.opgen_names.specs.declared.TheConstants.{MAX_NAME_LEN};
ghost use Rattle.opgen_read.specs.Places.{IsNoted};

use arrayvec::ArrayString;
use indexmap::IndexMap;
use opgen_design::{MAX_SIGNALS, Port, Signal};
use opgen_list::Items;
use opgen_names::MAX_NAME_LEN;
use std::alloc::{AllocError, Global};
use std::marker::Model;

/// A name as a key that holds its bytes itself, so that no look-up follows a pointer to them.
type Key = ArrayString<MAX_NAME_LEN>;

/// What is declared under a name.
pub trait Named {
    ghost use Rattle.std.specs.Prelude.{◌≡◌, List, ℕ};

    ghost name_of: { Self → List ℕ };

    fn name(&self) -> &str
        ensures { result.now ≡ name_of self.now };
}

impl Named for Port {
    ghost name_of = { λ p. p.name };

    fn name(&self) -> &str {
        self.name.as_str()
    }
}

impl Named for Signal {
    ghost name_of = { λ s. s.name };

    fn name(&self) -> &str {
        self.name.as_str()
    }
}

/// A list of declarations under allowed names. Contracts see it as the list.
#[derive(Drop)]
pub struct Declared<T: Named> {
    items: Items<T>,
    first: IndexMap<Key, usize>,
    /// Whether each name is a letter and its own place.
    are_numbered: bool,
}

impl<T: Named> Model for Declared<T> {
    ghost use Rattle.std.specs.Prelude.{List, map};
    ghost use Rattle.std.specs.Coded.{coded_list};
    ghost use Rattle.opgen_read.specs.Places.{FindsEach, KnowsAllowed};

    ghost Value = { List T };

    ghost coded = { coded_list T.code };

    ghost view = { λ a. a.items };

    ghost invariant = { λ a. FindsEach a.first (map T.name_of a.items) × KnowsAllowed a.first };
}

impl<T: Named + Drop> Declared<T> {
    ghost use Rattle.std.specs.Prelude.{◌≡◌, IfOk, IfSome, IsTrue, ◌++◌, ◌∷◌, [], map, position};
    ghost use Rattle.opgen_names.specs.Names.{is_allowed_name};
    ghost use Rattle.opgen_vhdl.specs.Grammar.{place_of};

    pub fn new(alloc: Global) -> Declared<T>
        ensures { result ≡ [] }
    {
        Declared {
            items: Items::new(alloc),
            first: IndexMap::new(alloc),
            are_numbered: true,
        }
    }

    /// The place of the first declaration of this name, or how many declarations there are.
    pub fn place(&self, name: &str) -> usize
        ensures { result ≡ place_of (map T.name_of self.now) name.now }
    {
        match self.find(name) {
            Some(place) => place,
            None => self.items.len(),
        }
    }

    /// The place of the first declaration of this name, which is allowed then.
    pub fn find(&self, name: &str) -> Option<usize>
        ensures value { result ≡ position (bytes_eq name.now) (map T.name_of self.now) }
        ensures place { IfSome result (λ k. k ≡ place_of (map T.name_of self.now) name.now) }
        ensures allowed { IfSome result (λ _. IsTrue (is_allowed_name name.now)) }
    {
        let first = &self.first;
        if name.len() > MAX_NAME_LEN {
            return None;
        }
        first.get(&key_of(name)).copied()
    }

    /// The place of the first declaration of this name, which is allowed then, where all names are a letter and their places, as in
    /// generated texts without copies. Such a name is found without its hash.
    pub fn find_by_number(&self, name: &[u8]) -> Option<usize>
        ensures place { IfSome result (λ k. k ≡ place_of (map T.name_of self.now) name.now) }
        ensures allowed { IfSome result (λ _. IsTrue (is_allowed_name name.now)) }
    {
        if !self.are_numbered {
            return None;
        }
        let (key, place) = self.first.get_index(number_behind(name)?)?;
        if key.as_str().as_bytes() == name {
            Some(*place)
        } else {
            None
        }
    }

    /// Whether there is a declaration of this name, which is allowed then.
    pub fn has(&self, name: &str) -> bool
        ensures { IsTrue result → IsTrue (is_allowed_name name.now) }
    {
        self.find(name).is_some()
    }

    /// The declarations with one more.
    pub fn declare(self, item: T) -> Result<Declared<T>, AllocError>
        requires { IsTrue (is_allowed_name (T.name_of item)) }
        ensures { IfOk result (λ d. d ≡ self ++ item ∷ []) }
    {
        let Declared {
            mut items,
            mut first,
            are_numbered,
        } = self;
        let are_numbered = are_numbered
            && number_behind(item.name().as_bytes()) == Some(items.len());
        append(&mut items, &mut first, item)?;
        Ok(Declared {
            items,
            first,
            are_numbered,
        })
    }

    pub fn into_items(self) -> Items<T>
        ensures { result ≡ self }
    {
        self.items
    }
}

fn key_of(name: &str) -> Key
    requires { length name.now ≤ MAX_NAME_LEN }
    ensures { result.bytes ≡ name.now }
{
    let mut key = ArrayString::new();
    key.push_str(name);
    key
}

// The number that stands behind a letter, where it can be that of a signal.
fn number_behind(name: &[u8]) -> Option<usize> {
    let (_letter, digits) = name.split_first()?;
    let mut number = 0;
    'digits: for digit in digits {
        if !digit.is_ascii_digit() || number > MAX_SIGNALS {
            return None;
        }
        number = number * 10 + (*digit - b'0') as usize;
    }
    Some(number)
}

// Notes a place for a name, unless the map leads from it somewhere already.
fn note(first: &mut IndexMap<Key, usize>, name: &str, place: usize) -> Result<(), AllocError>
    requires { length name.now ≤ MAX_NAME_LEN }
    ensures { IfOk result (λ _. IsNoted first.old name.now place first.new) }
{
    let key = key_of(name);
    if first.get(&key).is_some() {
        return Ok(());
    }
    first.insert(key, place)?;
    Ok(())
}

// Puts an item behind the others, and notes its place for its name.
fn append<T: Named + Drop>(
    items: &mut Items<T>,
    first: &mut IndexMap<Key, usize>,
    item: T,
) -> Result<(), AllocError>
    requires { length (T.name_of item) ≤ MAX_NAME_LEN }
    ensures items { IfOk result (λ _. items.new ≡ items.old ++ item ∷ []) }
    ensures noted { IfOk result (λ _. IsNoted first.old (T.name_of item) (length items.old) first.new) }
{
    note(first, item.name(), items.len())?;
    items.push(item)?;
    Ok(())
}
