//! The subcommand `status`: its arguments and its help.

ghost use Rattle.std.specs.Prelude.{codes, IfSome};
ghost use Rattle.clap.specs.Words.{found_of, rows_of};
ghost use Rattle.arguments.specs.Asking.{IsTask};

use crate::described::{Argument, ArgumentKind, FLAG, OPTION, Subcommand};
use crate::places::{CONFIG, EXPLAIN, HALL, KEY, PATIENCE, PATIENCE_OPTION, desks_at};
use crate::task::Task;
use crate::values::number_or;
use clap::ArgMatches;
use replay_arguments::flag_at;

const ABOUT: &str = "Asks the desks of a hall how they are, and says what that means.";

const AFTER: &str = "\
The desks are those of FILE, or those of hall H at the ADDRs. Prints a line for each: its number,
its role (idle, gathering, proposing or leading), how many commands its log has, how many wait, and
its address; or why it says nothing, as `no answer`. At the end a line says what it means, as
`all 3 desks have all 1010 commands`. A desk that was asked under another number is said so.

With --all further lines say what else has to fit before the day: whether each desk's program is of
this version, what the clock of this machine says, whether its disk has room, and which keys stand
in the folder of FILE. Ask so on each machine.

Exit status: 0 a majority answered, and none lacks a command; 1 a majority answered, and one of
these lacks commands; 2 invalid arguments, or help; 3 no majority answered, or FILE is no hall's
file; 4 cannot write; 5 no memory.";

/// The subcommand `status`.
pub const STATUS: Subcommand<'static> = Subcommand {
    name: "status",
    about: ABOUT,
    after: AFTER,
    common: &[CONFIG, HALL, KEY],
    own: &[
        Argument {
            id: "to",
            name: "ADDR",
            help: "The addresses of the desks, one to five, desk 1 first, with --hall",
            takes: ArgumentKind::FewTexts,
            needs: &["hall"],
            ..OPTION
        },
        PATIENCE_OPTION,
        Argument {
            id: "json",
            help: "Print one JSON object on a line",
            ..FLAG
        },
        Argument {
            id: "watch",
            help: "Ask and print again each second, until it is ended",
            ..FLAG
        },
        Argument {
            id: "all",
            help: "Say what else has to fit, of the desks' programs and of this machine",
            without: &["json", "watch"],
            ..FLAG
        },
        EXPLAIN,
    ],
};

/// What the arguments of `status` ask for.
pub fn status_of<'m, 'a: 'm>(found: &'m ArgMatches<'a>) -> Option<Task<'m>>
    ensures { IfSome result (λ task. IsTask task (codes "status") (rows_of (found_of found.now))) }
{
    let desks = desks_at(found)?;
    let patience = number_or(found, "patience", PATIENCE)?;
    let json = flag_at(found, "json");
    let watches = flag_at(found, "watch");
    let all = flag_at(found, "all");
    Some(Task::Status {
        desks,
        patience,
        json,
        watches,
        all,
    })
}
