//! The subcommand `export`: its arguments and its help.

ghost use Rattle.std.specs.Prelude.{codes, IfSome};
ghost use Rattle.clap.specs.Words.{found_of, rows_of};
ghost use Rattle.arguments.specs.Asking.{IsTask};

use crate::described::{Argument, FLAG, Subcommand};
use crate::import::WCIF;
use crate::task::Task;
use clap::ArgMatches;
use replay_arguments::{flag_at, text_at};

const ABOUT: &str = "Prints a competition's WCIF file with the results of each round.";

const AFTER: &str = "\
Standard input has the log of a desk, as `desk log` prints it. FILE is the competition's file that
was imported, in the WCA Competition Interchange Format. It is printed with the `results` of each
round that was opened. Every other member stays in its place with its value, numbers as they are
spelled; white space goes.

Where FILE has no place for something of the log, nothing is printed, and standard error gets a line
for each such thing, as `333-r2: the file has no such round`. A round without any result that FILE
does not have is left out.

Standard error gets a line too for each round that still runs, that is left out, or that has another
format in FILE. Where a round still runs, FILE is printed only with --running.

Exit status: 0 the file was printed; 1 it was, with a note to read, or a round still runs; 2
invalid arguments, or help; 3 input too long, the log is cut off, the log opens no round, or FILE is
invalid or does not fit the log; 4 cannot read, cannot read FILE, or cannot write; 5 no memory.";

/// The subcommand `export`.
pub const EXPORT: Subcommand<'static> = Subcommand {
    name: "export",
    about: ABOUT,
    after: AFTER,
    common: &[],
    own: &[
        WCIF,
        Argument {
            id: "running",
            help: "Print the results of rounds that still run, too",
            ..FLAG
        },
    ],
};

/// What the arguments of `export` ask for.
pub fn export_of<'a>(found: &ArgMatches<'a>) -> Option<Task<'a>>
    ensures { IfSome result (λ task. IsTask task (codes "export") (rows_of (found_of found.now))) }
{
    let file = text_at(found, "wcif")?;
    let running = flag_at(found, "running");
    Some(Task::Export { file, running })
}
