//! The subcommand `tick`: its arguments and its help.

use crate::described::Subcommand;
use crate::places::ERRAND;

const ABOUT: &str = "Sends a desk a tick, as a clock would every few seconds.";

const AFTER: &str = "\
The desk tries again what it waits for, or asks the other desks for what it lacks. Prints `ok`.

Exit status: 0 done; 2 invalid arguments, or help; 3 bad desk number, bad hall file, a key that is
refused, or refused NAME; 4 cannot connect, cannot write, or no answer; 5 no memory.";

/// The subcommand `tick`.
pub const TICK: Subcommand<'static> = Subcommand {
    name: "tick",
    about: ABOUT,
    after: AFTER,
    common: &ERRAND,
    own: &[],
};
