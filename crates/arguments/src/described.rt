//! How the arguments of a subcommand are described, and the subcommand that is made of it.

ghost use Rattle.std.specs.Prelude.{◌≡◌, false, IfOk};
ghost use Rattle.clap.specs.Words.{app_of, rule_of};
ghost use Rattle.clap.specs.declared.builder.command.Command.TheViews.{out-Command as fields_of};
ghost use Rattle.arguments.specs.{Arguments.IsCommand, Tables.with_described};
ghost use Rattle.arguments.specs.Tables.{described_app, described_rule, taken_rule, with_arguments};

use clap::builder::ValueParser;
use clap::{Arg, ArgAction, Command};
use replay_arguments::{flag, plain_command, value, with_argument, with_subcommand};
use std::alloc::{AllocError, Global};

/// What an argument takes.
#[derive(Clone, Copy)]
pub enum ArgumentKind {
    /// Nothing: it is a flag.
    Nothing,
    /// A text.
    Text,
    /// One to five texts, after one use.
    FewTexts,
    /// A text at each use, of which there may be several.
    Texts,
    /// A whole number from one to another.
    Number { low: u64, high: u64 },
}

/// An argument of a subcommand.
#[derive(Clone, Copy)]
pub struct Argument<'a> {
    pub id: &'a str,
    /// What help calls the value.
    pub name: &'a str,
    pub help: &'a str,
    pub takes: ArgumentKind,
    /// Whether it is known by its place. Else it is given after two hyphens and its id.
    pub by_place: bool,
    pub required: bool,
    /// The arguments beside which it cannot be given.
    pub without: &'a [&'a str],
    /// The arguments without which it cannot be given.
    pub needs: &'a [&'a str],
}

/// A subcommand.
#[derive(Clone, Copy)]
pub struct Subcommand<'a> {
    pub name: &'a str,
    /// What it does, on a line.
    pub about: &'a str,
    /// What is below the arguments in its help.
    pub after: &'a str,
    /// The arguments that it shares with other subcommands.
    pub common: &'a [Argument<'a>],
    pub own: &'a [Argument<'a>],
}

/// A flag, which each table completes.
pub const FLAG: Argument<'static> = Argument {
    id: "",
    name: "",
    help: "",
    takes: ArgumentKind::Nothing,
    by_place: false,
    required: false,
    without: &[],
    needs: &[],
};

/// An option with a text, which may be left out.
pub const OPTION: Argument<'static> = Argument {
    name: "FILE",
    takes: ArgumentKind::Text,
    ..FLAG
};

/// A value that is known by its place, and has to be given.
pub const VALUE: Argument<'static> = Argument {
    takes: ArgumentKind::Text,
    by_place: true,
    required: true,
    ..FLAG
};

/// The argument with what it takes.
fn taking<'a>(alloc: Global, described: &Argument<'a>) -> Arg<'a>
    ensures rule { rule_of result ≡ taken_rule described.now.id.now described.now.takes }
    ensures local { result.global ≡ false }
{
    let Argument { id, name, help, .. } = *described;
    match described.takes {
        ArgumentKind::Nothing => flag(alloc, id, help),
        ArgumentKind::Text => value(alloc, id, name, help, ValueParser::string()),
        ArgumentKind::FewTexts => value(alloc, id, name, help, ValueParser::string()).num_args(
            1..=5,
        ),
        ArgumentKind::Texts => {
            value(alloc, id, name, help, ValueParser::string()).action(ArgAction::Append)
        }
        ArgumentKind::Number { low, high } => {
            value(alloc, id, name, help, ValueParser::unsigned(low, high))
        }
    }
}

/// The argument that is described.
fn made_argument<'a>(alloc: Global, described: &Argument<'a>) -> Result<Arg<'a>, AllocError>
    ensures rule { IfOk result (λ r. rule_of r ≡ described_rule described.now) }
    ensures local { IfOk result (λ r. r.global ≡ false) }
{
    let plain = taking(alloc, described).required(described.required);
    let alone = plain.conflicts_with_all(described.without)?;
    let bound = alone.requires_all(described.needs)?;
    if described.by_place {
        return Ok(bound);
    }
    Ok(bound.long(described.id))
}

/// The command with these arguments, too.
pub fn with_arguments<'a>(
    alloc: Global,
    mut command: Command<'a>,
    arguments: &[Argument<'a>],
) -> Result<Command<'a>, AllocError>
    ensures app { IfOk result (λ c.
        app_of c ≡ with_arguments (app_of command.entry) arguments.now) }
    ensures local { IfOk result
        (λ c. (fields_of c).has_globals ≡ (fields_of command.entry).has_globals) }
{
    for described in arguments {
        let arg = made_argument(alloc, described)?;
        command = with_argument(command, arg)?;
    }
    Ok(command)
}

/// The subcommand that is described.
pub fn made_subcommand<'a>(
    alloc: Global,
    described: &Subcommand<'a>,
) -> Result<Command<'a>, AllocError>
    ensures { IfOk result (λ c. IsCommand c (described_app described.now)) }
{
    let command = plain_command(alloc, described.name, described.about, described.after);
    let command = with_arguments(alloc, command, described.common)?;
    with_arguments(alloc, command, described.own)
}

/// The command with the subcommand that is described.
pub fn with_described<'a>(
    alloc: Global,
    command: Command<'a>,
    described: &Subcommand<'a>,
) -> Result<Command<'a>, AllocError>
    ensures { IfOk result (λ c. app_of c ≡ with_described (app_of command.entry) described.now) }
{
    let sub = made_subcommand(alloc, described)?;
    with_subcommand(command, sub)
}
