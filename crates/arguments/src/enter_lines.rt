//! The subcommand `enter-lines`: its arguments and its help.

ghost use Rattle.std.specs.Prelude.{codes, IfSome};
ghost use Rattle.clap.specs.Words.{found_of, rows_of};
ghost use Rattle.arguments.specs.Asking.{IsTask};

use crate::described::{Argument, ArgumentKind, FLAG, OPTION, Subcommand};
use crate::places::{ERRAND, placed};
use crate::task::{EnterOptions, Task};
use crate::values::optional_id_at;
use clap::ArgMatches;
use replay_arguments::flag_at;

const ABOUT: &str = "Enters the commands of standard input at a desk, one a line.";

const AFTER: &str = "\
The whole input is read first. The first command gets the id ID, and each later one gets the next
id. A command is entered again while the desk's queue is full. Prints `taken ID` for each. With
--wait it prints what `desk ask` prints, once the command is decided; a desk that decides nothing is
sent a tick from time to time.

After a fault, each line for which something was printed is entered. The next line may be entered,
and no later line was sent. Continue with that next line and its id: no command is entered twice.

Empty lines and comments, which begin with #, are left out. A comment like `# OPEN 333 2 ao5 - 60000
top:8`, as `desk import` writes it, proposes how a later round is held: the score table shows that
where the round is opened. A line that is no command is named on standard error, and then nothing is
sent. Without --first-id the ids that were taken are said there.

Exit status: 0 all lines were entered; 2 invalid arguments, or help; 3 bad desk number, bad hall
file, a key that is refused, input too long, text too long, no more ids, still pending, command lost
(the desk was started again before the command was decided), not a command, another command's id,
stopped at a refusal, or refused NAME; 4 cannot read, cannot connect, cannot write, or no answer; 5
no memory.";

/// The subcommand `enter-lines`.
pub const ENTER_LINES: Subcommand<'static> = Subcommand {
    name: "enter-lines",
    about: ABOUT,
    after: AFTER,
    common: &ERRAND,
    own: &[
        Argument {
            id: "first-id",
            name: "ID",
            help: "The id of the first line, 1 to 9223372036854775807; without it a random one",
            takes: ArgumentKind::Number {
                low: 1,
                high: 9_223_372_036_854_775_807,
            },
            ..OPTION
        },
        Argument {
            id: "wait",
            help: "Wait for each command until it is decided",
            ..FLAG
        },
        Argument {
            id: "progress",
            help: "Say on standard error how far it is",
            ..FLAG
        },
        Argument {
            id: "stop-at-refusal",
            help: "End at the first command that is refused",
            ..FLAG
        },
        Argument {
            id: "send-all",
            help: "Send lines that are no commands, too",
            ..FLAG
        },
    ],
};

/// What the arguments of `enter-lines` ask for.
pub fn lines_of<'a>(found: &ArgMatches<'a>) -> Option<Task<'a>>
    ensures { IfSome result
        (λ task. IsTask task (codes "enter-lines") (rows_of (found_of found.now))) }
{
    let (place, patience) = placed(found)?;
    let first_id = optional_id_at(found, "first-id")?;
    let waits = flag_at(found, "wait");
    let progress = flag_at(found, "progress");
    let stops_at_refusal = flag_at(found, "stop-at-refusal");
    let sends_all = flag_at(found, "send-all");
    let lines = EnterOptions {
        first_id,
        waits,
        progress,
        stops_at_refusal,
        sends_all,
    };
    Some(Task::EnterLines {
        place,
        patience,
        lines,
    })
}
