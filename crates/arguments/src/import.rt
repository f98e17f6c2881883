//! The subcommand `import`: its arguments and its help.

ghost use Rattle.std.specs.Prelude.{◌≡◌, false, codes, IfOk, IfSome, Some};
ghost use Rattle.clap.specs.Words.{found_of, rows_of, rule_of};
ghost use Rattle.arguments.specs.Arguments.{IsCommand, optional_value_rule};
ghost use Rattle.arguments.specs.Asking.{ImportParsers, IsTask, by_option, import_arguments};

use crate::described::{Argument, OPTION, Subcommand, made_subcommand};
use crate::task::Task;
use clap::builder::ValueParser;
use clap::{Arg, ArgMatches, Command};
use replay_arguments::{text_at, value, with_argument};
use std::alloc::{AllocError, Global};
use wcif::{CumulativeLimits, Edition, Options, SameNames};

const ABOUT: &str = "Prints the commands that set up a competition, from its WCIF file.";

const AFTER: &str = "\
FILE is a competition in the WCA Competition Interchange Format, as the WCA's site gives it. The
commands are printed one a line, for `desk enter-lines`: `EDITION 4`, a `REG` for each
accepted person, an `OPEN` for the first round of each event, and an `ENT` for each event of each
registration. With `--edition 3` the first one is `EDITION 3`, for desks of an earlier program.
Comments after them show how FILE has later rounds, as `# OPEN 333 2 ao5 - 60000 top:8`.

Where a desk cannot hold something of the competition, nothing is printed, and standard error gets
a line for each such thing, as `333bf-r1: cumulative limit: enter the limit that holds for one
attempt`.

Exit status: 0 the commands were printed; 2 invalid arguments, or help; 3 the file gives no
commands; 4 cannot read FILE, or cannot write; 5 no memory.";

/// The option `--wcif`, which has to be given.
pub const WCIF: Argument<'static> = Argument {
    id: "wcif",
    help: "The competition's file",
    required: true,
    ..OPTION
};

/// The subcommand `import` with the first of its arguments.
const IMPORT: Subcommand<'static> = Subcommand {
    name: "import",
    about: ABOUT,
    after: AFTER,
    common: &[],
    own: &[WCIF],
};

/// The text that is accepted after `--edition`.
static EDITIONS: [&str; 1] = ["3"];

/// The text that is accepted after `--cumulative`.
static LIMITS: [&str; 1] = ["as-single"];

/// The text that is accepted after `--same-names`.
static NAMES: [&str; 1] = ["id"];

/// An option with one of these texts, which its help calls by a name.
fn way<'a>(
    alloc: Global,
    id: &'a str,
    name: &'a str,
    help: &'a str,
    texts: &'a [&'a str],
) -> Arg<'a>
    ensures rule { rule_of result
        ≡ optional_value_rule id.entry.now (Some (ValueParser.Names texts.entry)) }
    ensures local { result.global ≡ false }
{
    value(alloc, id, name, help, ValueParser::from(texts))
        .required(false)
        .long(id)
}

/// The subcommand `import`, as the parser knows it.
pub fn import_command<'a>(alloc: Global) -> Result<Command<'a>, AllocError>
    ensures { IfOk result
        (λ command. (p : ImportParsers) × IsCommand command (import_arguments p)) }
{
    let command = made_subcommand(alloc, &IMPORT)?;
    let edition = way(
        alloc,
        "edition",
        "EDITION",
        "The edition of the commands, for desks of a program without edition 4",
        EDITIONS.as_slice(),
    );
    let command = with_argument(command, edition)?;
    let limits = way(
        alloc,
        "cumulative",
        "WAY",
        "A time limit for several attempts together becomes the limit of each",
        LIMITS.as_slice(),
    );
    let command = with_argument(command, limits)?;
    let names = way(
        alloc,
        "same-names",
        "WAY",
        "Each of several persons with one name gets the WCA ID behind it",
        NAMES.as_slice(),
    );
    with_argument(command, names)
}

/// One of two, by whether an option is given.
fn chosen<T: Copy>(found: &ArgMatches<'_>, id: &str, given: T, none: T) -> T
    ensures { result ≡ by_option id.now (rows_of (found_of found.now)) given none }
{
    if found.get_str(id).is_some() {
        given
    } else {
        none
    }
}

/// What the arguments of `import` ask for.
pub fn import_of<'m, 'a: 'm>(found: &'m ArgMatches<'a>) -> Option<Task<'m>>
    ensures { IfSome result (λ task. IsTask task (codes "import") (rows_of (found_of found.now))) }
{
    let file = text_at(found, "wcif")?;
    let options = Options {
        edition: chosen(found, "edition", Edition::Three, Edition::Four),
        limits: chosen(
            found,
            "cumulative",
            CumulativeLimits::AsSingle,
            CumulativeLimits::Refuse,
        ),
        names: chosen(found, "same-names", SameNames::WithId, SameNames::Refuse),
    };
    Some(Task::Import { file, options })
}
