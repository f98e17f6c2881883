//! The subcommand `enter`: its arguments and its help.

ghost use Rattle.std.specs.Prelude.{◌≡◌, codes, map, IfSome};
ghost use Rattle.clap.specs.Words.{found_of, rows_of};
ghost use Rattle.arguments.specs.Asking.{are_command, is_verb, IsTask};

use crate::described::{Argument, ArgumentKind, FLAG, Subcommand, VALUE};
use crate::places::{ERRAND, placed};
use crate::task::Task;
use crate::values::id_in;
use clap::ArgMatches;
use replay_arguments::flag_at;

const ABOUT: &str = "Enters a command at a desk, so that the desks of its hall agree on it.";

const AFTER: &str = "\
Prints `taken ID`: the command waits in the desk's queue. `desk ask` says what happened to it later.
With --wait it prints what `desk ask` prints once the command is decided, and what a refusal means;
what is no command in any edition is named on standard error then, and nothing is sent.

TEXT is the command, in quotes or without, as desk enter --wait ATT 333 1 1 17 DNF. Without an ID
before it the command gets a random one, which is printed. Each command has an ID of its own: once
the desks have agreed on a command, another one with the same ID is refused as a repeat.

Exit status: 0 taken, or with --wait accepted; 1 with --wait refused by the rules; 2 invalid
arguments, or help; 3 bad desk number, bad hall file, a key that is refused, text too long, not a
command, still pending, command lost, another command's id, or refused NAME; 4 cannot connect,
cannot write, or no answer; 5 no memory.";

/// The subcommand `enter`.
pub const ENTER: Subcommand<'static> = Subcommand {
    name: "enter",
    about: ABOUT,
    after: AFTER,
    common: &ERRAND,
    own: &[
        Argument {
            id: "wait",
            help: "Wait for the command until it is decided",
            ..FLAG
        },
        Argument {
            id: "words",
            name: "TEXT",
            help: "The command, at most 600 bytes; its id may come before it, 1 to 2^63 - 1",
            takes: ArgumentKind::Texts,
            ..VALUE
        },
    ],
};

/// Whether a word begins as the first one of a command does, with a capital letter.
fn is_verb(word: &str) -> bool
    ensures { result ≡ is_verb word.now }
{
    match word.as_bytes().first() {
        Some(byte) => *byte >= b'A' && *byte <= b'Z',
        None => false,
    }
}

/// Whether words are a command without an id before it: one word, or several of which the first one
/// begins a command.
fn are_command(words: &[&str]) -> bool
    ensures { result ≡ are_command (map (λ w. w.now) words.now) }
{
    match words {
        [] => false,
        [_] => true,
        [first, ..] => is_verb(first),
    }
}

/// What the arguments of `enter` ask for.
pub fn enter_of<'m, 'a: 'm>(found: &'m ArgMatches<'a>) -> Option<Task<'m>>
    ensures { IfSome result (λ task. IsTask task (codes "enter") (rows_of (found_of found.now))) }
{
    let (place, patience) = placed(found)?;
    let waits = flag_at(found, "wait");
    let words = found.get_strs("words")?;
    if are_command(words) {
        return Some(Task::Enter {
            place,
            patience,
            id: None,
            words,
            waits,
        });
    }
    let [first, rest @ ..] = words else {
        return None;
    };
    let id = id_in(first)?;
    Some(Task::Enter {
        place,
        patience,
        id: Some(id),
        words: rest,
        waits,
    })
}
