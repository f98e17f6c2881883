//! The options, as the parser knows them.

ghost use Rattle.std.specs.Prelude.{IfOk};
ghost use Rattle.hall_file.specs.hall_options.Options.{AddsDesks, IsOption, key_option, to_option};
ghost use Rattle.hall_file.specs.hall_options.Options.{config_option, hall_option, plain_option};

use clap::builder::ValueParser;
use clap::{Arg, ArgAction, Command};
use std::alloc::{AllocError, Global};

/// An option with a value, which may be left out.
pub fn option<'a>(
    alloc: Global,
    id: &'a str,
    name: &'a str,
    help: &'a str,
    parser: ValueParser<'a>,
) -> Arg<'a>
    ensures { IsOption
        (plain_option id.entry.now name.entry.now help.entry.now parser.entry) result }
{
    Arg::new(alloc, id)
        .long(id)
        .value_name(name)
        .help(help)
        .action(ArgAction::Set)
        .value_parser(parser)
}

/// The option of the hall's file, beside which no number and no address is given.
fn config_option<'a>(alloc: Global) -> Result<Arg<'a>, AllocError>
    ensures { IfOk result (IsOption config_option) }
{
    let help = "The file that describes the hall; without it and --hall it is hall.toml";
    option(alloc, "config", "FILE", help, ValueParser::string())
        .conflicts_with("hall")?
        .conflicts_with("to")
}

/// The option of the hall's number, which comes with addresses.
fn hall_option<'a>(alloc: Global) -> Result<Arg<'a>, AllocError>
    ensures { IfOk result (IsOption hall_option) }
{
    let help = "The hall's number, 0 to 4294967295, where no file describes it";
    let number = ValueParser::unsigned(0, 4_294_967_295);
    option(alloc, "hall", "H", help, number).requires_arg("to")
}

/// The option of the addresses, one to five, which come with the hall's number.
fn to_option<'a>(alloc: Global) -> Result<Arg<'a>, AllocError>
    ensures { IfOk result (IsOption to_option) }
{
    let help = "The addresses of the desks, one to five, desk 1 first, with --hall";
    option(alloc, "to", "ADDR", help, ValueParser::string())
        .num_args(1..=5)
        .requires_arg("hall")
}

/// The option of the key's file.
fn key_option<'a>(alloc: Global) -> Arg<'a>
    ensures { IsOption key_option result }
{
    let help = "The file of the hall's key; without it the one that the hall's file names";
    option(alloc, "key", "FILE", help, ValueParser::string())
}

/// A program with the options that say which desks are asked: `--config`, a hall's file, or
/// `--hall`, the hall's number, with `--to`, the addresses of one to five desks; and `--key`, the
/// file of the hall's key.
pub fn with_desks<'a>(alloc: Global, command: Command<'a>) -> Result<Command<'a>, AllocError>
    ensures { IfOk result (AddsDesks command.entry) }
{
    let command = command.arg(config_option(alloc)?)?;
    let command = command.arg(hall_option(alloc)?)?;
    let command = command.arg(to_option(alloc)?)?;
    command.arg(key_option(alloc))
}
