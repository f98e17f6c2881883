//! The subcommand `sheet`: its arguments and its help.

ghost use Rattle.std.specs.Prelude.{codes, IfOk, IfSome};
ghost use Rattle.clap.specs.Words.{found_of, rows_of};
ghost use Rattle.arguments.specs.Arguments.{IsCommand};
ghost use Rattle.arguments.specs.Asking.{sheet_arguments, IsTask, RoundParsers};

use crate::described::{
    Argument, ArgumentKind, FLAG, Subcommand, VALUE, made_subcommand, with_arguments,
};
use crate::places::{ERRAND, placed};
use crate::task::{ClientRequest, Task};
use crate::values::optional_at;
use clap::{ArgMatches, Command};
use replay_arguments::{event_at, event_value, round_at, round_value, style_at, with_argument};
use std::alloc::{AllocError, Global};

const ABOUT: &str = "Fetches the result sheet of a round from a desk and prints it.";

const AFTER: &str = "\
The sheet is that of the first COUNT commands of the desk's log; COUNT 0 is the empty log. Without
COUNT it is the newest sheet: that of the whole log. Each sheet says how many it counts. Where `desk
ask` prints `done ID 4 Done`, the first sheet with that command has COUNT 5. All desks print the
same bytes for the same COUNT.

Exit status: 0 the sheet was printed; 2 invalid arguments, or help; 3 bad desk number, bad hall
file, a key that is refused, or refused NAME (NotThere: the desk's log is shorter; NoSuchRound: none
of these commands opened the round); 4 cannot connect, cannot write, or no answer; 5 no memory.";

/// The subcommand `sheet` as far as each subcommand has it that asks a desk.
const SHEET: Subcommand<'static> = Subcommand {
    name: "sheet",
    about: ABOUT,
    after: AFTER,
    common: &ERRAND,
    own: &[],
};

/// Its arguments after the event and the round.
const LAST: [Argument<'static>; 2] = [
    Argument {
        id: "position",
        name: "COUNT",
        help: "How many commands of the log the sheet counts; without it all that the desk has",
        takes: ArgumentKind::Number {
            low: 0,
            high: 4_294_967_295,
        },
        required: false,
        ..VALUE
    },
    Argument {
        id: "csv",
        help: "Print the sheet as comma-separated values",
        ..FLAG
    },
];

/// The subcommand `sheet`, as the parser knows it.
pub fn sheet_command<'a>(alloc: Global) -> Result<Command<'a>, AllocError>
    ensures { IfOk result (λ command. (p : RoundParsers) × IsCommand command (sheet_arguments p)) }
{
    let command = made_subcommand(alloc, &SHEET)?;
    let command = with_argument(command, event_value(alloc))?;
    let command = with_argument(command, round_value(alloc))?;
    with_arguments(alloc, command, &LAST)
}

/// What the arguments of `sheet` ask for: the sheet at a position, or the newest one.
pub fn sheet_of<'a>(found: &ArgMatches<'a>) -> Option<Task<'a>>
    ensures { IfSome result (λ task. IsTask task (codes "sheet") (rows_of (found_of found.now))) }
{
    let (place, patience) = placed(found)?;
    let event = event_at(found)?;
    let round = round_at(found)?;
    let style = style_at(found);
    let position = optional_at(found, "position")?;
    match position {
        Some(position) => Some(Task::Carry {
            place,
            patience,
            request: ClientRequest::Sheet {
                event,
                round,
                position,
                style,
            },
        }),
        None => Some(Task::Newest {
            place,
            patience,
            event,
            round,
            style,
        }),
    }
}
