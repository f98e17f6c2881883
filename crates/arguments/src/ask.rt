//! The subcommand `ask`: its arguments and its help.

use crate::described::{Argument, ArgumentKind, Subcommand, VALUE};
use crate::places::ERRAND;

const ABOUT: &str = "Asks a desk what happened to a command.";

const AFTER: &str = "\
Prints one of these lines:

  unknown ID      the command is neither in the desk's log nor in its queue
  pending ID      the command waits in the desk's queue
  done ID N Done  it is in the log, after N others, and it was accepted
  done ID N CODE  it is in the log, after N others, and it was refused;
                  docs/FORMATS.md explains each CODE

Exit status: 0 answered; 2 invalid arguments, or help; 3 bad desk number, bad hall file, a key that
is refused, or refused NAME; 4 cannot connect, cannot write, or no answer; 5 no memory.";

/// The subcommand `ask`.
pub const ASK: Subcommand<'static> = Subcommand {
    name: "ask",
    about: ABOUT,
    after: AFTER,
    common: &ERRAND,
    own: &[Argument {
        id: "id",
        name: "ID",
        help: "The command's id, 1 to 9223372036854775807",
        takes: ArgumentKind::Number {
            low: 1,
            high: 9_223_372_036_854_775_807,
        },
        ..VALUE
    }],
};
