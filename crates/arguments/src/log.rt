//! The subcommand `log`: its arguments and its help.

ghost use Rattle.std.specs.Prelude.{codes, map, IfSome};
ghost use Rattle.clap.specs.Words.{found_of, rows_of};
ghost use Rattle.arguments.specs.Asking.{AreWhose, IsForm, IsTask};

use crate::described::{Argument, ArgumentKind, FLAG, OPTION, Subcommand};
use crate::places::{ERRAND, placed};
use crate::task::{LogFormOption, Task};
use crate::values::{number_or, without};
use clap::ArgMatches;
use command_line::plain_number;
use formats::Event;
use replay_arguments::{flag_at, text_at};

const ABOUT: &str = "Prints the log of a desk as the lines that `desk replay` reads.";

const AFTER: &str = "\
The desk runs, and is asked for its log; or it is stopped, and FILE of --store is its file, or a
copy of it with its FILE-wal. A line is printed for each command of the log: its text. The line is
empty where the same id came before, or where the text has a line feed. So `desk replay` of these
lines prints each sheet that the desk would print at the end of its log.

With --long the log is printed for people: the number of each command from 1, its id, its answer,
its remark, which says who entered it and when, and its text. With --who so are the changes of one
result alone, that of competitor 17 in 333 round 1 by --who 333 1 17.

Exit status: 0 the log was printed; 2 invalid arguments, or help; 3 bad desk number, bad hall file,
a key that is refused, damaged store (FILE is not a valid store of a desk), or refused NAME; 4 store
device (FILE does not exist, cannot be opened, or another program has it open), cannot connect, no
answer, or cannot write; 5 no memory.";

/// The subcommand `log`.
pub const LOG: Subcommand<'static> = Subcommand {
    name: "log",
    about: ABOUT,
    after: AFTER,
    common: &ERRAND,
    own: &[
        Argument {
            id: "store",
            help: "The file of a desk that is stopped",
            without: &[
                "config", "hall", "key", "desk", "to", "patience", "from", "long", "who",
            ],
            ..OPTION
        },
        Argument {
            id: "from",
            name: "N",
            help: "Leave out the first N commands, 0 to 65536; without this option none",
            takes: ArgumentKind::Number {
                low: 0,
                high: 65_536,
            },
            ..OPTION
        },
        Argument {
            id: "long",
            help: "Print the log for people, with answers and remarks",
            ..FLAG
        },
        Argument {
            id: "who",
            name: "EVENT ROUND NUMBER",
            help: "Print the changes of one result alone, as 333 1 17",
            takes: ArgumentKind::FewTexts,
            ..OPTION
        },
    ],
};

/// The result that three words name: an event, a round and a competitor's number.
fn changes_of(words: &[&str]) -> Option<LogFormOption>
    ensures { IfSome result (AreWhose (map (λ w. w.now) words.now)) }
{
    let [event, round, number] = words else {
        return None;
    };
    let event = Event::from_name(event.as_bytes())?;
    let round = plain_number(round)?;
    let number = plain_number(number)?;
    if round == 0 || round > 4 || number == 0 || number > 9999 {
        return None;
    }
    Some(LogFormOption::ChangesOf {
        event,
        round: round as u8,
        number: number as u16,
    })
}

/// In which form the log is wanted.
fn form_at(found: &ArgMatches<'_>) -> Option<LogFormOption>
    ensures { IfSome result (IsForm (rows_of (found_of found.now))) }
{
    if let Some(words) = found.get_strs("who") {
        return changes_of(words);
    }
    if flag_at(found, "long") {
        Some(LogFormOption::Rows)
    } else {
        Some(LogFormOption::Lines)
    }
}

/// What the arguments of `log` ask for: the log of a desk that runs, or of a stopped one.
pub fn log_of<'a>(found: &ArgMatches<'a>) -> Option<Task<'a>>
    ensures { IfSome result (λ task. IsTask task (codes "log") (rows_of (found_of found.now))) }
{
    if found.get_str("store").is_none() {
        without(found, "store")?;
        let (place, patience) = placed(found)?;
        let from = number_or(found, "from", 0)?;
        if from > 65_536 {
            return None;
        }
        let form = form_at(found)?;
        return Some(Task::CopyLog {
            place,
            patience,
            from,
            form,
        });
    }
    let store = text_at(found, "store")?;
    without(found, "config")?;
    without(found, "hall")?;
    without(found, "to")?;
    Some(Task::Log { store })
}
