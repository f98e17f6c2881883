//! The subcommand `key`: its arguments and its help.

ghost use Rattle.std.specs.Prelude.{codes, IfSome};
ghost use Rattle.clap.specs.Words.{found_of, rows_of};
ghost use Rattle.arguments.specs.Asking.{IsTask};

use crate::described::{Argument, OPTION, Subcommand};
use crate::task::Task;
use crate::values::given_text;
use clap::ArgMatches;

const ABOUT: &str = "Makes a key for a hall: 64 hexadecimal digits, at random.";

const AFTER: &str = "\
With --file the key is written to FILE, which only its owner may read; nothing may be there before.
Without it the key is printed, as for

  (umask 077; desk key > hall.key)

A key's file that others than its owner may read is refused wherever a key is asked for. The hall's
key is one for all its desks. A copy goes to each desk and to each client, over no open network: on
a USB stick, and then `chmod 600` of the copy. `desk serve --help` says what its holders may do.

Exit status: 0 the key was made; 2 invalid arguments, or help; 3 key file is there; 4 cannot read
(there are no random numbers), or cannot write; 5 no memory.";

/// The subcommand `key`.
pub const KEY: Subcommand<'static> = Subcommand {
    name: "key",
    about: ABOUT,
    after: AFTER,
    common: &[],
    own: &[Argument {
        id: "file",
        help: "The file that is made; without it the key is printed",
        ..OPTION
    }],
};

/// What the arguments of `key` ask for.
pub fn key_of<'a>(found: &ArgMatches<'a>) -> Option<Task<'a>>
    ensures { IfSome result (λ task. IsTask task (codes "key") (rows_of (found_of found.now))) }
{
    let file = given_text(found, "file");
    Some(Task::Key { file })
}
