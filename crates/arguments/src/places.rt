//! Where desks are asked for: the arguments that say it, and how they are read.

ghost use Rattle.std.specs.Prelude.{IfSome};
ghost use Rattle.clap.specs.Words.{found_of, rows_of};
ghost use Rattle.arguments.specs.Asking.{AreDesks, IsHall, IsHallFile, IsPlace, IsPlaced};

use crate::described::{Argument, ArgumentKind, FLAG, OPTION};
use crate::values::{byte_at, four_bytes_at, given_text, number_or, optional_byte_at, without};
use clap::ArgMatches;
use replay_arguments::text_at;

/// Where a desk is asked for. `key` is the path of the file with the hall's key, or with the one
/// for entries alone.
#[derive(Clone, Copy)]
pub enum Place<'a> {
    /// The desk of a hall, at an address. Without `key` it is asked without a key.
    Desk {
        hall: u32,
        desk: u8,
        address: &'a str,
        key: Option<&'a str>,
    },
    /// A desk of the hall that a file describes: the one of this number, or, where none is given,
    /// the last one that answers. Without `key` the hall's file says the key's, or none.
    File {
        file: &'a str,
        desk: Option<u8>,
        key: Option<&'a str>,
    },
}

/// Where all desks of a hall are asked for. `key` is as that of [`Place`].
#[derive(Clone, Copy)]
pub enum DeskPlaces<'a> {
    /// At these addresses, one to five, desk 1 first.
    Addresses {
        hall: u32,
        addresses: &'a [&'a str],
        key: Option<&'a str>,
    },
    /// Where the file of a hall says.
    File {
        file: &'a str,
        key: Option<&'a str>,
    },
}

/// For how many seconds a desk is waited for without the option `--patience`.
pub const PATIENCE: u32 = 10;

/// The file of a hall where the arguments name none.
const HALL_FILE: &str = "hall.toml";

/// The option `--config`, which comes without a hall's number and without addresses.
pub const CONFIG: Argument<'static> = Argument {
    id: "config",
    help: "The file that describes the hall; without it and --hall it is hall.toml",
    without: &["hall", "to"],
    ..OPTION
};

/// The option `--hall`, which comes with the argument for addresses.
pub const HALL: Argument<'static> = Argument {
    id: "hall",
    name: "H",
    help: "The hall's number, 0 to 4294967295, where no file describes it",
    takes: ArgumentKind::Number {
        low: 0,
        high: 4_294_967_295,
    },
    needs: &["to"],
    ..OPTION
};

/// The option `--key`.
pub const KEY: Argument<'static> = Argument {
    id: "key",
    help: "The file with the hall's key; without it that of the hall's file, if it names one",
    ..OPTION
};

/// The option `--patience` of a subcommand that asks desks.
pub const PATIENCE_OPTION: Argument<'static> = Argument {
    id: "patience",
    name: "SECONDS",
    help: "How long to wait for the desk's answer, 1 to 3600; without this option 10",
    takes: ArgumentKind::Number { low: 1, high: 3600 },
    ..OPTION
};

/// The flag `--explain`.
pub const EXPLAIN: Argument<'static> = Argument {
    id: "explain",
    help: "After a fault's line a second one says what was met, and what to do",
    ..FLAG
};

/// The arguments of each subcommand that asks a desk: of which hall, which one and where, and how
/// long to wait for it.
pub const ERRAND: [Argument<'static>; 7] = [
    CONFIG,
    HALL,
    KEY,
    Argument {
        id: "desk",
        name: "D",
        help: "The desk's number, 1 to 5; with a file the last that answers, where it is left out",
        takes: ArgumentKind::Number { low: 0, high: 255 },
        ..OPTION
    },
    Argument {
        id: "to",
        name: "ADDR",
        help: "The desk's address, as 127.0.0.1:7001, with --hall and --desk",
        needs: &["hall", "desk"],
        ..OPTION
    },
    PATIENCE_OPTION,
    EXPLAIN,
];

/// The number of a hall that no file describes.
pub fn hall_at(found: &ArgMatches<'_>) -> Option<u32>
    ensures { IfSome result (λ hall. IsHall hall (rows_of (found_of found.now))) }
{
    without(found, "config")?;
    four_bytes_at(found, "hall")
}

/// The file of a hall, where no number and no address are given beside it.
pub fn hall_file_at<'a>(found: &ArgMatches<'a>, address: &str) -> Option<&'a str>
    ensures { IfSome result (λ file.
        IsHallFile file.now address.now (rows_of (found_of found.now))) }
{
    without(found, "hall")?;
    without(found, address)?;
    match found.get_str("config") {
        Some(file) => Some(file),
        None => Some(HALL_FILE),
    }
}

/// Where a subcommand asks its desk: one of a hall at an address, or of one that a file describes.
fn place_at<'a>(found: &ArgMatches<'a>) -> Option<Place<'a>>
    ensures { IfSome result (λ place. IsPlace place (rows_of (found_of found.now))) }
{
    let key = given_text(found, "key");
    if found.get_str("hall").is_none() {
        let file = hall_file_at(found, "to")?;
        let desk = optional_byte_at(found, "desk")?;
        return Some(Place::File { file, desk, key });
    }
    let hall = hall_at(found)?;
    let desk = byte_at(found, "desk")?;
    let address = text_at(found, "to")?;
    Some(Place::Desk {
        hall,
        desk,
        address,
        key,
    })
}

/// Where a subcommand asks its desk, and for how many seconds it waits for it.
pub fn placed<'a>(found: &ArgMatches<'a>) -> Option<(Place<'a>, u32)>
    ensures { IfSome result (λ p. IsPlaced p.0 p.1 (rows_of (found_of found.now))) }
{
    let place = place_at(found)?;
    let patience = number_or(found, "patience", PATIENCE)?;
    Some((place, patience))
}

/// Where a subcommand asks all desks of a hall.
pub fn desks_at<'m, 'a: 'm>(found: &'m ArgMatches<'a>) -> Option<DeskPlaces<'m>>
    ensures { IfSome result (λ desks. AreDesks desks (rows_of (found_of found.now))) }
{
    let key = given_text(found, "key");
    if found.get_str("hall").is_none() {
        let file = hall_file_at(found, "to")?;
        return Some(DeskPlaces::File { file, key });
    }
    let hall = hall_at(found)?;
    let addresses = found.get_strs("to")?;
    if addresses.is_empty() || addresses.len() > 5 {
        return None;
    }
    Some(DeskPlaces::Addresses {
        hall,
        addresses,
        key,
    })
}
