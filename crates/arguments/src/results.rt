//! The subcommand `results`: its arguments and its help.

ghost use Rattle.std.specs.Prelude.{codes, IfSome};
ghost use Rattle.clap.specs.Words.{found_of, rows_of};
ghost use Rattle.arguments.specs.Asking.{IsTask};

use crate::described::{Argument, FLAG, Subcommand};
use crate::task::Task;
use clap::ArgMatches;
use replay_arguments::flag_at;

const ABOUT: &str = "Prints the results of all rounds as JSON.";

const AFTER: &str = "\
Standard input has the log of a desk, as `desk log` prints it. One JSON object is printed, with each
round that was opened: its settings, and of each competitor the place, the attempts, the best and
the average. docs/FORMATS.md says what each member means, and docs/results.schema.json is its JSON
Schema.

Exit status: 0 the results were printed; 2 invalid arguments, or help; 3 input too long, or the log
is cut off; 4 cannot read, or cannot write; 5 no memory.";

/// The subcommand `results`.
pub const RESULTS: Subcommand<'static> = Subcommand {
    name: "results",
    about: ABOUT,
    after: AFTER,
    common: &[],
    own: &[Argument {
        id: "json",
        help: "Print JSON, the one form that there is",
        required: true,
        ..FLAG
    }],
};

/// What the arguments of `results` ask for.
pub fn results_of<'a>(found: &ArgMatches<'a>) -> Option<Task<'a>>
    ensures { IfSome result (λ task. IsTask task (codes "results") (rows_of (found_of found.now))) }
{
    if flag_at(found, "json") {
        Some(Task::Results)
    } else {
        None
    }
}
