//! The arguments of the program, and how they are parsed.

ghost use Rattle.std.specs.Prelude.{◌≡◌, IfOk};
ghost use Rattle.clap.specs.Words.{app_of, subcommand_rows_of};
ghost use Rattle.arguments.specs.Asking.{ImportParsers, Parsers, Parses, RoundParsers};
ghost use Rattle.arguments.specs.{Asking.desk_arguments, Tables.first_half};
ghost use Rattle.command_line.specs.Arguments.{argument_texts};

use crate::ask::ASK;
use crate::described::with_described;
use crate::enter::ENTER;
use crate::enter_lines::ENTER_LINES;
use crate::export::EXPORT;
use crate::hall::HALL;
use crate::hall_files::HALL_FILE;
use crate::import::import_command;
use crate::key::KEY;
use crate::log::LOG;
use crate::results::RESULTS;
use crate::serve::SERVE;
use crate::sheet::sheet_command;
use crate::status::STATUS;
use crate::stop::STOP;
use crate::tick::TICK;
use clap::{ArgMatches, Command, Error};
use replay_arguments::{desk_command, replay_command, with_subcommand};
use std::alloc::{AllocError, Global};

/// The program with its subcommands as far as `serve`.
fn first_half<'a>(alloc: Global) -> Result<Command<'a>, AllocError>
    ensures { IfOk result (λ command. (r : RoundParsers) × (i : ImportParsers)
        × (app_of command ≡ first_half r i)) }
{
    let replay = replay_command(alloc)?;
    let command = with_subcommand(desk_command(alloc), replay)?;
    let import = import_command(alloc)?;
    let command = with_subcommand(command, import)?;
    let command = with_described(alloc, command, &EXPORT)?;
    let command = with_described(alloc, command, &RESULTS)?;
    let command = with_described(alloc, command, &HALL)?;
    let command = with_described(alloc, command, &HALL_FILE)?;
    let command = with_described(alloc, command, &KEY)?;
    with_described(alloc, command, &SERVE)
}

/// The program, as the parser knows it.
fn command<'a>(alloc: Global) -> Result<Command<'a>, AllocError>
    ensures { IfOk result (λ command. (p : Parsers) × (app_of command ≡ desk_arguments p)) }
{
    let command = first_half(alloc)?;
    let command = with_described(alloc, command, &STATUS)?;
    let command = with_described(alloc, command, &LOG)?;
    let command = with_described(alloc, command, &ENTER)?;
    let command = with_described(alloc, command, &ENTER_LINES)?;
    let command = with_described(alloc, command, &ASK)?;
    let sheet = sheet_command(alloc)?;
    let command = with_subcommand(command, sheet)?;
    let command = with_described(alloc, command, &TICK)?;
    with_described(alloc, command, &STOP)
}

/// Parses the arguments of the program, its own name first.
pub fn parse<'a>(alloc: Global, given: &'a [&'a str]) -> Result<ArgMatches<'a>, Error>
    ensures { IfOk result
        (λ matches. Parses (argument_texts given.now) (subcommand_rows_of matches)) }
{
    let command = command(alloc)?;
    command.try_get_matches_from(given)
}
