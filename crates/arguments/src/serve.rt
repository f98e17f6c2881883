//! The subcommand `serve`: its arguments and its help.

ghost use Rattle.std.specs.Prelude.{◌≡◌, codes, IfSome};
ghost use Rattle.clap.specs.Words.{found_of, rows_of};
ghost use Rattle.arguments.specs.Arguments.{IsNumberOr};
ghost use Rattle.arguments.specs.Asking.{AreOptions, IsTask, origin_of, wire_number};

use crate::described::{Argument, ArgumentKind, FLAG, OPTION, Subcommand, VALUE};
use crate::places::{CONFIG, EXPLAIN, HALL, KEY, hall_at, hall_file_at};
use crate::task::{HallService, Task};
use crate::values::{byte_at, given_text, number_or, optional_at};
use clap::ArgMatches;
use hall_file::service::{ServeOptions, Service, StoreOrigin};
use replay_arguments::{flag_at, text_at};
use wire::Version;

/// For how many seconds a client may be silent without the option `--patience`.
const PATIENCE: u32 = 30;

/// After how many milliseconds a desk of a file's hall ticks itself without the option `--tick`.
const TICK: u32 = 1_000;

const ABOUT: &str = "Runs a desk from its file: it serves clients and the other desks of its hall.";

const AFTER: &str = "\
The hall and where its desks listen are in the file of --config, else in hall.toml, or they are
given by --hall and the ADDRs, in the order of the desks' numbers, as 127.0.0.1:7001. There are
three or five, and they are the same at each desk.

What the desk has promised and decided is kept in FILE and in FILE-wal beside it. A desk that was
stopped or killed is started again with the same FILE. With --config FILE has to be there, and --new
makes it, once, before the day, if another desk answers and none has a command. --new-hall says that
all desks of the hall are new: so none has to answer. With --hall FILE is created if it does not
exist. With --config the desk gives itself a Tick each second, unless --tick says otherwise; with
--hall none.

The desk serves all its clients side by side, at most 512 at once.

With a key (--key, or the hall file's `key`) only those who have it are answered: the other desks,
and clients that have it, which may do everything. A client with the key of --entry-key may enter
commands, ask, and send ticks, but cannot stop the desk or speak as another one. With --open-sheets
a client without a key may ask for sheets, answers, the log and how the desk is. With --old-key, in
the place of --entry-key, that key counts as the hall's too, while the hall's is changed at one desk
after the other. They come with a key alone. `desk key` makes a key. Nothing that is sent is secret.

Prints `desk D of N len LENGTH` once clients can connect: N is the number of desks, and LENGTH is
the length of the desk's log. At the end it prints `served CONNECTIONS`. On standard error it says
when another desk cannot be reached, and when it is reached again; --quiet leaves that out.

Exit status: 0 K connections were served, or a client asked the desk to stop; 2 invalid arguments,
or help; 3 bad number of desks, bad desk number, bad hall file, two desks have one address, unknown
host, a key's file that is refused, no store, store there already, wrong desk, or damaged store; 4
store device (FILE cannot be opened, or another program has it open), store down (a write to it
failed), cannot listen, or cannot write; 5 no memory.";

/// The values ADDR.
pub const ADDRESSES: Argument<'static> = Argument {
    id: "addr",
    name: "ADDR",
    help: "Where each desk listens, desk 1 first",
    takes: ArgumentKind::Texts,
    ..VALUE
};

/// The subcommand `serve`.
pub const SERVE: Subcommand<'static> = Subcommand {
    name: "serve",
    about: ABOUT,
    after: AFTER,
    common: &[
        Argument {
            without: &["hall", "addr"],
            ..CONFIG
        },
        Argument {
            needs: &["addr"],
            ..HALL
        },
        KEY,
    ],
    own: &[
        Argument {
            id: "desk",
            name: "D",
            help: "The desk's number, 1 to 5",
            takes: ArgumentKind::Number { low: 0, high: 255 },
            required: true,
            ..OPTION
        },
        Argument {
            id: "store",
            help: "The desk's file",
            required: true,
            ..OPTION
        },
        Argument {
            id: "new",
            help: "Make the desk's file, which must not be there; another desk has to answer",
            without: &["hall"],
            ..FLAG
        },
        Argument {
            id: "new-hall",
            help: "Make the desk's file as --new does, in a hall whose desks are all new",
            without: &["hall"],
            ..FLAG
        },
        Argument {
            id: "patience",
            name: "SECONDS",
            help: "How long a client may be silent, 1 to 86400; without this option 30",
            takes: ArgumentKind::Number {
                low: 1,
                high: 86_400,
            },
            ..OPTION
        },
        Argument {
            id: "connections",
            name: "K",
            help: "End after K connections, 1 to 1000000; without this option when it is stopped",
            takes: ArgumentKind::Number {
                low: 1,
                high: 1_000_000,
            },
            ..OPTION
        },
        Argument {
            id: "wire",
            name: "VERSION",
            help: "The version of the frames for the other desks, 1 or 2; without this option 1",
            takes: ArgumentKind::Number { low: 1, high: 2 },
            ..OPTION
        },
        Argument {
            id: "tick",
            name: "MILLISECONDS",
            help: "\
How long until a Tick of the desk's own, 100 to 60000; without it 1000, with --hall none",
            takes: ArgumentKind::Number {
                low: 100,
                high: 60_000,
            },
            ..OPTION
        },
        Argument {
            id: "quiet",
            help: "Says nothing of desks that cannot be reached",
            ..FLAG
        },
        Argument {
            id: "entry-key",
            help: "\
The file with a second key, which may only enter and ask; without it entry.key beside FILE, if any",
            ..OPTION
        },
        Argument {
            id: "old-key",
            help: "The file with the key that was the hall's, while that is changed",
            without: &["entry-key"],
            ..OPTION
        },
        Argument {
            id: "open-sheets",
            help: "\
Lets clients without a key ask for sheets, answers, the log and how the desk is",
            ..FLAG
        },
        EXPLAIN,
        Argument {
            required: false,
            needs: &["hall"],
            ..ADDRESSES
        },
    ],
};

/// The value of VERSION, or version 1 where it is not given.
fn wire_at(found: &ArgMatches<'_>) -> Option<Version>
    ensures { IfSome result
        (λ wire. IsNumberOr (codes "wire") 1 (rows_of (found_of found.now)) (wire_number wire)) }
{
    match number_or(found, "wire", 1)? {
        1 => Some(Version::One),
        2 => Some(Version::Two),
        _ => None,
    }
}

/// Where the store of a desk of a file's hall comes from.
fn origin_of(new: bool, new_hall: bool) -> StoreOrigin
    ensures { result ≡ origin_of new new_hall }
{
    if new || new_hall {
        StoreOrigin::New
    } else {
        StoreOrigin::Open
    }
}

/// What is asked of a desk whose store comes from there and whose own Ticks have this period.
fn options_at<'m, 'a: 'm>(
    found: &'m ArgMatches<'a>,
    making: StoreOrigin,
    tick: Option<u32>,
) -> Option<ServeOptions<'m>>
    ensures asked { IfSome result (λ o. AreOptions o (rows_of (found_of found.now))) }
    ensures making { IfSome result (λ o. o.making ≡ making) }
    ensures tick { IfSome result (λ o. o.tick ≡ tick) }
{
    Some(ServeOptions {
        desk: byte_at(found, "desk")?,
        store: text_at(found, "store")?,
        making,
        patience: number_or(found, "patience", PATIENCE)?,
        connections: optional_at(found, "connections")?,
        wire: wire_at(found)?,
        tick,
        quiet: flag_at(found, "quiet"),
        key: given_text(found, "key"),
        entry_key: given_text(found, "entry-key"),
        old_key: given_text(found, "old-key"),
        open_sheets: flag_at(found, "open-sheets"),
    })
}

/// What the arguments of `serve` ask for: a desk of a hall at addresses, or of a file's hall.
pub fn serve_of<'m, 'a: 'm>(found: &'m ArgMatches<'a>) -> Option<Task<'m>>
    ensures { IfSome result (λ task. IsTask task (codes "serve") (rows_of (found_of found.now))) }
{
    let new = flag_at(found, "new");
    let new_hall = flag_at(found, "new-hall");
    if found.get_str("hall").is_none() {
        let file = hall_file_at(found, "addr")?;
        let tick = number_or(found, "tick", TICK)?;
        let options = options_at(found, origin_of(new, new_hall), Some(tick))?;
        let wanted = HallService { options, new_hall };
        return Some(Task::ServeHall { file, wanted });
    }
    if new || new_hall {
        return None;
    }
    let hall = hall_at(found)?;
    let tick = optional_at(found, "tick")?;
    let options = options_at(found, StoreOrigin::AsNeeded, tick)?;
    let addresses = found.get_strs("addr")?;
    let service = Service {
        hall,
        addresses,
        options,
    };
    Some(Task::Serve { service })
}
