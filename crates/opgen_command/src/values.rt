//! Takes words, numbers in a range, and flags out of what `clap` has parsed.
ghost use Rattle.std.specs.Prelude.{◌≡◌, ◌≤◌, IfSome, IfOk, IfErr, option_map};
ghost use Rattle.std.specs.Result.{result_ok};
ghost use Rattle.clap.specs.Words.{found_of, rows_of};
ghost use Rattle.opgen_command.specs.Command.{is_set, number_of, within, word_of};

use crate::fault::CommandFault;
use clap::ArgMatches;

/// The word of a name.
pub(crate) fn word<'a>(found: &ArgMatches<'a>, name: &str) -> Option<&'a str>
    ensures { option_map (λ word. word.now) result ≡ word_of name.now (rows_of (found_of found.now)) }
{
    found.get_str(name)
}

fn within(least: u32, most: u32, number: u32) -> Option<u32>
    ensures value { result ≡ within least most number }
    ensures range { IfSome result (λ n. (least ≤ n) × (n ≤ most)) }
{
    if least <= number && number <= most {
        Some(number)
    } else {
        None
    }
}

/// The number of a name, if it is in its range; if there is none, the default.
pub(crate) fn number(
    found: &ArgMatches<'_>,
    name: &str,
    least: u32,
    most: u32,
    default: Option<u32>,
) -> Result<u32, CommandFault>
    ensures value { result_ok result ≡ number_of name.now least most default (rows_of (found_of found.now)) }
    ensures usage { IfErr result (λ fault. fault ≡ CommandFault.Usage) }
    ensures range { IfSome default (λ n. (least ≤ n) × (n ≤ most)) → IfOk result (λ n. (least ≤ n) × (n ≤ most)) }
{
    match found.try_get_one::<u32>(name) {
        Ok(Some(number)) => within(least, most, number).ok_or(CommandFault::Usage),
        Ok(None) => default.ok_or(CommandFault::Usage),
        Err(_) => Err(CommandFault::Usage),
    }
}

/// Whether the flag of a name is there.
pub(crate) fn is_set(found: &ArgMatches<'_>, name: &str) -> bool
    ensures { result ≡ is_set name.now (rows_of (found_of found.now)) }
{
    match word(found, name) {
        Some(text) => text == "true",
        None => false,
    }
}
