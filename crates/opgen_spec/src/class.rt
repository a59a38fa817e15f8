//! The classes of delay lines, by their names.
ghost use Rattle.std.specs.Prelude.{◌≡◌, find};
ghost use Rattle.std.specs.Str.{bytes_eq};
ghost use Rattle.opgen_spec.specs.Spec.{class_name, class_named};

use opgen_net::Class;

fn class_name(class: Class) -> &'static str
    ensures { result.now ≡ class_name class }
{
    match class {
        Class::Wire => "wire",
        Class::Logic => "logic",
        Class::Add => "add",
        Class::Choice => "choice",
        Class::Table => "table",
        Class::Register => "register",
    }
}

fn class_among(classes: &[Class], name: &str) -> Option<Class>
    ensures { result ≡ find (λ one. bytes_eq (class_name one) name.now) classes.now }
{
    classes
        .iter()
        .copied()
        .find(|class| class_name(*class) == name)
}

/// The class of this name.
pub(crate) fn class_named(name: &str) -> Option<Class>
    ensures { result ≡ class_named name.now }
{
    class_among(&Class::ALL, name)
}
