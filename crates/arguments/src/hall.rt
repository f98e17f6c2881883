//! The subcommand `hall`: its arguments and its help.

ghost use Rattle.std.specs.Prelude.{codes, IfSome};
ghost use Rattle.clap.specs.Words.{found_of, rows_of};
ghost use Rattle.arguments.specs.Asking.{IsTask};

use crate::described::{Argument, ArgumentKind, Subcommand, VALUE};
use crate::task::Task;
use crate::values::byte_at;
use clap::ArgMatches;

const ABOUT: &str = "Runs a hall of desks from a script and prints what they send and decide.";

const SCRIPT: &str = "\
Standard input has one event a line; D is a desk, 1 to DESKS:

  submit 1 7 REG 1 Ann Li  desk 1 receives the command `REG 1 Ann Li` with the id 7
  start 1                  desk 1 begins to have a command decided
  tick 1                   desk 1 receives a tick, as from a clock
  deliver 3                the message m3 arrives at its desk
  restart 1                desk 1 stops and is opened again from its store

At most 65,536 lines, 10,000 bytes a line and 39,387,136 bytes in all are read.

Standard output gets a line for each message that is sent, as `m3 1 2 Prepare 1.1 0`: its number,
its sender, its receiver, its kind and its fields. It gets a line `refused N FAULT` where the desk
refuses the event of line N. At the end it gets the logs of the desks, a line for each entry, as
`desk 1 0 7 REG 1 Ann Li`: the desk, how many came before, the id, the command.

Exit status: 0 the script was run; 2 invalid arguments, or help; 3 bad number of desks, bad line N,
or input too long; 4 cannot read, or cannot write; 5 no memory.";

/// The subcommand `hall`.
pub const HALL: Subcommand<'static> = Subcommand {
    name: "hall",
    about: ABOUT,
    after: SCRIPT,
    common: &[],
    own: &[Argument {
        id: "desks",
        name: "DESKS",
        help: "How many desks there are, 3 or 5",
        takes: ArgumentKind::Number { low: 0, high: 255 },
        ..VALUE
    }],
};

/// What the arguments of `hall` ask for.
pub fn hall_of<'a>(found: &ArgMatches<'a>) -> Option<Task<'a>>
    ensures { IfSome result (λ task. IsTask task (codes "hall") (rows_of (found_of found.now))) }
{
    let desks = byte_at(found, "desks")?;
    Some(Task::Hall { desks })
}
