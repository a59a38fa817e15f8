//! The names of the commands.
ghost use Rattle.std.specs.Prelude.{◌≡◌, None, IfSome};
ghost use Rattle.opgen_command.specs.Names.{spelling};
ghost use Rattle.opgen_command.specs.declared.name.CommandName.{CommandName};

/// Which command a command line asks for.
#[derive(Clone, Copy)]
pub(crate) enum CommandName {
    Generate,
    Vectors,
    Simulate,
    Workload,
    Check,
}

/// The command that a word names, if it is spelled as here.
pub(crate) fn command_name(word: &str) -> Option<CommandName>
    ensures named { IfSome result (λ name. word.now ≡ spelling name) }
    ensures unnamed { result ≡ None → (name : CommandName) → word.now ≡ spelling name → ⊥ }
{
    match word {
        "generate" => Some(CommandName::Generate),
        "vectors" => Some(CommandName::Vectors),
        "simulate" => Some(CommandName::Simulate),
        "workload" => Some(CommandName::Workload),
        "check" => Some(CommandName::Check),
        _ => None,
    }
}
