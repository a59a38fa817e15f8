//! Stacks of places on the path of the depth-first walk: reads the top, and pops the places above a given one.
ghost use Rattle.std.specs.Prelude.{◌≡◌, ◌≤◌, ◌<◌, ℕ, Contains, slice_get, length, ◌-◌};
ghost use Rattle.opgen_components.specs.Walk.{IsAscending};

/// The last of a list of places.
pub fn top(places: &[usize]) -> Option<usize>
    ensures { result ≡ slice_get places.now (length places.now - 1) }
{
    places.last().copied()
}

/// Takes off the places that lie beyond one.
pub fn cut(places: &mut Vec<usize>, place: usize)
    requires { IsAscending places.old.items }
    ensures up { IsAscending places.new.items }
    ensures there { (b : ℕ) → Contains places.new.items b → Contains places.old.items b }
    ensures within { (b : ℕ) → Contains places.new.items b → b ≤ place }
    ensures kept { (b : ℕ) → Contains places.old.items b → b ≤ place → Contains places.new.items b }
{
    let mut kept = places.len();
    'places: while kept > 0 && places[kept - 1] > place {
        kept -= 1;
    }
    places.truncate(kept);
}
