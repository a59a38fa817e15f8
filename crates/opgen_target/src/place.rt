//! The place of a class of cells in the fixed order of the classes.
ghost use Rattle.std.specs.Prelude.{◌≡◌};
ghost use Rattle.opgen_net.specs.Classes.{place_of};

use crate::Class;

// The place of a class in their order.
pub(crate) fn place_of(class: Class) -> usize
    ensures { result ≡ place_of class }
{
    class as usize
}
