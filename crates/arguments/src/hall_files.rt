//! The subcommand `hall-file`: its arguments and its help.

ghost use Rattle.std.specs.Prelude.{codes, IfSome};
ghost use Rattle.clap.specs.Words.{found_of, rows_of};
ghost use Rattle.arguments.specs.Asking.{IsTask};

use crate::described::{Argument, ArgumentKind, FLAG, OPTION, Subcommand};
use crate::serve::ADDRESSES;
use crate::task::Task;
use crate::values::four_bytes_at;
use clap::ArgMatches;
use replay_arguments::flag_at;

const ABOUT: &str = "Prints a file that describes a hall, for --config.";

const AFTER: &str = "\
The ADDRs are where the desks of the hall listen, in the order of their numbers, as 127.0.0.1:7001.
There are three or five, and no two are the same. With the text in hall.toml the other subcommands
need no --hall, --desk and --to in the folder of that file.

With --keys nothing is printed but the names of what is made in this folder, where nothing of these
may be there before: the hall's file, a new key of the hall and one for entries, as hall.toml,
hall.key and entry.key; and a folder with what each machine needs of them, and nothing else:
for-desk-1 and so on, for-table and for-board. Only the owner may read the keys.

Exit status: 0 the file was printed, or all was made; 2 invalid arguments, or help; 3 bad hall file
(another number of ADDRs, an ADDR that is no address, or one that is there twice), or there already;
4 cannot read (there are no random numbers), or cannot write; 5 no memory.";

/// The subcommand `hall-file`.
pub const HALL_FILE: Subcommand<'static> = Subcommand {
    name: "hall-file",
    about: ABOUT,
    after: AFTER,
    common: &[],
    own: &[
        Argument {
            id: "hall",
            name: "H",
            help: "The hall's number, 0 to 4294967295",
            takes: ArgumentKind::Number {
                low: 0,
                high: 4_294_967_295,
            },
            required: true,
            ..OPTION
        },
        Argument {
            id: "keys",
            help: "Make two keys, and a folder for each machine",
            ..FLAG
        },
        ADDRESSES,
    ],
};

/// What the arguments of `hall-file` ask for.
pub fn hall_file_of<'m, 'a: 'm>(found: &'m ArgMatches<'a>) -> Option<Task<'m>>
    ensures { IfSome result
        (λ task. IsTask task (codes "hall-file") (rows_of (found_of found.now))) }
{
    let hall = four_bytes_at(found, "hall")?;
    let addresses = found.get_strs("addr")?;
    let keys = flag_at(found, "keys");
    Some(Task::HallFile {
        hall,
        addresses,
        keys,
    })
}
