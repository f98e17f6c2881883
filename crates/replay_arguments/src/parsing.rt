//! The arguments of the program as far as `replay` goes, and how they are parsed.

ghost use Rattle.std.specs.Prelude.{◌≡◌, false, IfOk, IfSome};
ghost use Rattle.clap.specs.Words.{app_of, subcommand_rows_of, with_subcommand};
ghost use Rattle.clap.specs.declared.builder.command.Command.TheViews.{out-Command as fields_of};
ghost use Rattle.replay_arguments.specs.Asking.{Finds, Parses, RoundParsers, named_app};
ghost use Rattle.replay_arguments.specs.Asking.{replay_program};
ghost use Rattle.command_line.specs.Arguments.{argument_texts};

use crate::replay::{ReplayTask, replay_command, replay_of};
use clap::{ArgMatches, Command, Error};
use std::alloc::{AllocError, Global};

const NAME: &str = "desk";

const ABOUT: &str = "The results desk of a speedcubing competition.";

const VERSION: &str = "1.0.0";

const STATUSES: &str = "\
Exit status: 0 done; 1 a desk lags or is silent (`status`); 2 invalid arguments, or help or the
version; 3 refused, by a name; 4 a file, a stream or a connection failed; 5 no memory.

For a status of 3, 4 or 5 standard error has one line that says why. For invalid arguments it has a
line that says what is wrong, and after it a hint or the usage.";

/// The program `desk` without its subcommands, as the parser knows it.
pub fn desk_command<'a>(alloc: Global) -> Command<'a>
    ensures { app_of result ≡ named_app }
{
    Command::new(alloc, NAME)
        .about(ABOUT)
        .version(VERSION)
        .after_help(STATUSES)
        .subcommand_required(true)
}

/// The command with one more subcommand.
pub fn with_subcommand<'a>(
    command: Command<'a>,
    sub: Command<'a>,
) -> Result<Command<'a>, AllocError>
    requires { (fields_of sub).has_globals ≡ false }
    ensures { IfOk result
        (λ c. app_of c ≡ with_subcommand (app_of command.entry) (app_of sub.entry).top) }
{
    command.subcommand(sub)
}

/// The program `desk` with the one subcommand `replay`, as the parser knows it. Its usage has this
/// name, whatever the name of the file that is run.
fn replay_program<'a>(alloc: Global) -> Result<Command<'a>, AllocError>
    ensures { IfOk result (λ command. (p : RoundParsers) × (app_of command ≡ replay_program p)) }
{
    let command = desk_command(alloc).bin_name(NAME)?;
    with_subcommand(command, replay_command(alloc)?)
}

/// Parses the arguments of a program whose one subcommand is `replay`, its own name first.
pub fn parse_replay<'a>(alloc: Global, given: &'a [&'a str]) -> Result<ArgMatches<'a>, Error>
    ensures { IfOk result
        (λ matches. Parses (argument_texts given.now) (subcommand_rows_of matches)) }
{
    let command = replay_program(alloc)?;
    command.try_get_matches_from(given)
}

/// What parsed arguments ask for. The parser accepts no subcommand but `replay`, no event without a
/// name, and no round but 1 to 4: nothing is asked for where it would.
pub fn replay_task(matches: &ArgMatches<'_>) -> Option<ReplayTask>
    ensures { IfSome result (λ task. Finds (subcommand_rows_of matches.now) task) }
{
    let (name, found) = matches.subcommand()?;
    match name {
        "replay" => replay_of(found),
        _ => None,
    }
}
