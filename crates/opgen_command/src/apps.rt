//! Defines for `clap` the arguments and options of each command.
ghost use Rattle.std.specs.Prelude.{◌≡◌, IfOk, false, pos};
ghost use Rattle.clap.specs.Words.{App, app_of, new_app, rule_of, with_rule};
ghost use Rattle.clap.specs.declared.builder.value_parser.ValueParser.TheVariants as parser;
ghost use Rattle.opgen_command.specs.Apps.{generate_app, vectors_app, simulate_app, workload_app, check_app, word, number_word, number_option, enable};
ghost use Rattle.opgen_command.specs.Names.{app_named};

use crate::name::CommandName;
use clap::builder::ValueParser;
use clap::{Arg, ArgAction, Command, value_parser};
use std::alloc::{AllocError, Global};

fn word<'a>(alloc: Global, name: &'a str) -> Arg<'a>
    ensures rule { rule_of result ≡ word name.entry.now }
    ensures local { result.global ≡ false }
{
    Arg::new(alloc, name).required(true)
}

// A number from `least` to `most`.
fn between<'a>(least: u32, most: u32) -> ValueParser<'a>
    ensures { result ≡ parser.Signed (pos least) (pos most) }
{
    value_parser!(u32).range(i64::from(least)..=i64::from(most))
}

fn number_word<'a>(alloc: Global, name: &'a str, least: u32, most: u32) -> Arg<'a>
    ensures rule { rule_of result ≡ number_word name.entry.now least most }
    ensures local { result.global ≡ false }
{
    Arg::new(alloc, name)
        .required(true)
        .value_parser(between(least, most))
}

fn number_option<'a>(alloc: Global, name: &'a str, least: u32, most: u32) -> Arg<'a>
    ensures rule { rule_of result ≡ number_option name.entry.now least most }
    ensures local { result.global ≡ false }
{
    Arg::new(alloc, name)
        .long(name)
        .value_parser(between(least, most))
}

fn enable<'a>(alloc: Global) -> Arg<'a>
    ensures rule { rule_of result ≡ enable }
    ensures local { result.global ≡ false }
{
    Arg::new(alloc, "enable")
        .long("enable")
        .action(ArgAction::SetTrue)
}

// Adds an argument, unless memory ran out before.
fn with<'a>(app: Result<Command<'a>, AllocError>, arg: Arg<'a>) -> Result<Command<'a>, AllocError>
    requires { arg.global ≡ false }
    ensures { (taken : App) → IfOk app.entry (λ before. app_of before ≡ taken)
        → IfOk result (λ c. app_of c ≡ with_rule taken (rule_of arg.entry)) }
{
    app?.arg(arg)
}

// A command that takes three arguments.
fn with_three<'a>(
    alloc: Global,
    name: &'a str,
    first: Arg<'a>,
    second: Arg<'a>,
    third: Arg<'a>,
) -> Result<Command<'a>, AllocError>
    requires first_local { first.global ≡ false }
    requires second_local { second.global ≡ false }
    requires third_local { third.global ≡ false }
    ensures { IfOk result (λ c. app_of c ≡ with_rule (with_rule (with_rule (new_app name.entry.now)
        (rule_of first.entry)) (rule_of second.entry)) (rule_of third.entry)) }
{
    let one = Command::new(alloc, name).arg(first);
    let two = with(one, second);
    with(two, third)
}

// `generate SPEC [--workers N] [--enable]`.
fn generate<'a>(alloc: Global) -> Result<Command<'a>, AllocError>
    ensures { IfOk result (λ c. app_of c ≡ generate_app) }
{
    with_three(
        alloc,
        "generate",
        word(alloc, "SPEC"),
        number_option(alloc, "workers", 1, 32),
        enable(alloc),
    )
}

// `vectors SPEC [--seed N] [--cycles N]`.
fn vectors<'a>(alloc: Global) -> Result<Command<'a>, AllocError>
    ensures { IfOk result (λ c. app_of c ≡ vectors_app) }
{
    with_three(
        alloc,
        "vectors",
        word(alloc, "SPEC"),
        number_option(alloc, "seed", 0, u32::MAX),
        number_option(alloc, "cycles", 1, 100_000),
    )
}

// `simulate VHDL VECTORS OUT`.
fn simulate<'a>(alloc: Global) -> Result<Command<'a>, AllocError>
    ensures { IfOk result (λ c. app_of c ≡ simulate_app) }
{
    with_three(
        alloc,
        "simulate",
        word(alloc, "VHDL"),
        word(alloc, "VECTORS"),
        word(alloc, "OUT"),
    )
}

// `workload N`.
fn workload<'a>(alloc: Global) -> Result<Command<'a>, AllocError>
    ensures { IfOk result (λ c. app_of c ≡ workload_app) }
{
    Command::new(alloc, "workload").arg(number_word(alloc, "N", 1, 32))
}

// `check SPEC VHDL VECTORS LATENCY`.
fn check<'a>(alloc: Global) -> Result<Command<'a>, AllocError>
    ensures { IfOk result (λ c. app_of c ≡ check_app) }
{
    let files = with_three(
        alloc,
        "check",
        word(alloc, "SPEC"),
        word(alloc, "VHDL"),
        word(alloc, "VECTORS"),
    );
    with(files, number_word(alloc, "LATENCY", 0, 100_000))
}

/// What a command takes.
pub(crate) fn app<'a>(alloc: Global, name: CommandName) -> Result<Command<'a>, AllocError>
    ensures { IfOk result (λ c. app_of c ≡ app_named name) }
{
    match name {
        CommandName::Generate => generate(alloc),
        CommandName::Vectors => vectors(alloc),
        CommandName::Simulate => simulate(alloc),
        CommandName::Workload => workload(alloc),
        CommandName::Check => check(alloc),
    }
}
