//! The subcommand `stop`: its arguments and its help.

use crate::described::Subcommand;
use crate::places::ERRAND;

const ABOUT: &str = "Asks a desk to stop.";

const AFTER: &str = "\
The desk answers and ends. Its file stays, and it can be started again. Prints `ok`; of a desk of
FILE it prints which one, as `ok: desk 2 at 10.0.0.2:7001`. Of these none is stopped without --desk.

Exit status: 0 done; 2 invalid arguments, no --desk, or help; 3 bad desk number, bad hall file, a
key that is refused, or refused NAME; 4 cannot connect, cannot write, or no answer; 5 no memory.";

/// The subcommand `stop`.
pub const STOP: Subcommand<'static> = Subcommand {
    name: "stop",
    about: ABOUT,
    after: AFTER,
    common: &ERRAND,
    own: &[],
};
