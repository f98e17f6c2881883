//! The arguments of subcommands, and how their values are read.

ghost use Rattle.std.specs.Prelude.{◌≡◌, false, IfOk, IfSome, Some};
ghost use Rattle.clap.specs.Words.{app_of, first_of, found_of, new_app, rows_of, rule_of};
ghost use Rattle.clap.specs.Words.{with_rule};
ghost use Rattle.clap.specs.declared.builder.command.Command.TheViews.{out-Command as fields_of};
ghost use Rattle.replay_arguments.specs.Arguments.{IsCommand, IsFlag, csv_rule, flag_rule};
ghost use Rattle.replay_arguments.specs.Arguments.{value_rule};

use clap::builder::ValueParser;
use clap::{Arg, ArgAction, ArgMatches, Command};
use std::alloc::{AllocError, Global};

/// A command with its help and without arguments.
pub fn plain_command<'a>(
    alloc: Global,
    name: &'a str,
    about: &'a str,
    after: &'a str,
) -> Command<'a>
    ensures { IsCommand result (new_app name.entry.now) }
{
    Command::new(alloc, name).about(about).after_help(after)
}

/// A required value, known by its place.
pub fn value<'a>(
    alloc: Global,
    id: &'a str,
    name: &'a str,
    help: &'a str,
    parser: ValueParser<'a>,
) -> Arg<'a>
    ensures rule { rule_of result ≡ value_rule id.entry.now (Some parser.entry) }
    ensures local { result.global ≡ false }
{
    Arg::new(alloc, id)
        .value_name(name)
        .help(help)
        .required(true)
        .action(ArgAction::Set)
        .value_parser(parser)
}

/// A flag, given after two hyphens.
pub fn flag<'a>(alloc: Global, id: &'a str, help: &'a str) -> Arg<'a>
    ensures rule { rule_of result ≡ flag_rule id.entry.now }
    ensures local { result.global ≡ false }
{
    Arg::new(alloc, id)
        .long(id)
        .help(help)
        .action(ArgAction::SetTrue)
}

/// The flag `--csv`.
pub fn csv_flag<'a>(alloc: Global) -> Arg<'a>
    ensures rule { rule_of result ≡ csv_rule }
    ensures local { result.global ≡ false }
{
    flag(alloc, "csv", "Print the sheet as comma-separated values")
}

/// The command with one more argument.
pub fn with_argument<'a>(command: Command<'a>, arg: Arg<'a>) -> Result<Command<'a>, AllocError>
    requires { arg.global ≡ false }
    ensures app { IfOk result
        (λ c. app_of c ≡ with_rule (app_of command.entry) (rule_of arg.entry)) }
    ensures local { IfOk result
        (λ c. (fields_of c).has_globals ≡ (fields_of command.entry).has_globals) }
{
    command.arg(arg)
}

/// Whether a flag is given.
pub fn flag_at(found: &ArgMatches<'_>, id: &str) -> bool
    ensures { IsFlag id.now (rows_of (found_of found.now)) result }
{
    found.get_flag(id)
}

/// The first value of an argument.
pub fn text_at<'a>(found: &ArgMatches<'a>, id: &str) -> Option<&'a str>
    ensures { IfSome result (λ t. first_of id.now (rows_of (found_of found.now)) ≡ Some t.now) }
{
    found.get_str(id)
}
