//! What the options name.

ghost use Rattle.std.specs.Prelude.{◌≡◌, ◌++◌, ◌∷◌, ◌||◌, [], List, ℕ, None, Ok, Some, true, codes};
ghost use Rattle.std.specs.Prelude.{is_some, vec_len, IfErr, IfOk, OnOk};
ghost use Rattle.clap.specs.Words.{found_of};
ghost use Rattle.hall_file.specs.{Halls.Says, Halls.key_text, hall_options.Found.IsMistakeOfDesk};
ghost use Rattle.hall_file.specs.hall_options.Found.{HasNumber, IsGiven, IsHallMistake, IsHallOf};
ghost use Rattle.hall_file.specs.hall_options.Found.{IsKeyOf, IsMistakeIn, count_of, is_given};
ghost use Rattle.hall_file.specs.hall_options.Found.{IsMistakeOfFile, IsMistakeOfKey, IsUnknown};
ghost use Rattle.hall_file.specs.declared.hall_options.mistakes.Mistake.TheVariants as wrong;

use crate::hall_options::mistakes::Mistake;
use crate::{HallFault, HallFile, HallOpenFault, key_path, read_hall_at};
use clap::ArgMatches;
use command_line::plain_number;
use keys::key_file::read_key_at;
use std::io;
use std::io::ErrorKind;
use std::net::{SocketAddr, ToSocketAddrs};

/// The file of a hall where the arguments name none.
const HALL_FILE: &str = "hall.toml";

/// A hall, where its desks are, and its key.
#[derive(Drop)]
pub struct FoundHall {
    /// The number of the hall.
    pub hall: u32,
    /// The address of desk 1, of desk 2 and so on: at most five, and at least one.
    pub desks: Vec<Option<SocketAddr>>,
    /// The key under which the desks are asked, if there is one.
    pub key: Option<[u8; 32]>,
}

/// The number of an option. It is a mistake where it has a sign or leading zeros, which the parser
/// accepts.
pub fn number_at<'a>(found: &ArgMatches<'_>, id: &'static str) -> Result<u64, Mistake<'a>>
    ensures ok { IfOk result (HasNumber (found_of found.now) id.now) }
    ensures err { IfErr result (λ m. m ≡ wrong.Number id.entry) }
{
    let Some(text) = found.get_str(id) else {
        return Err(Mistake::Number(id));
    };
    plain_number(text).ok_or(Mistake::Number(id))
}

/// The first address that a text names: an IP address or a host's name, a colon, and a port.
fn address_of(rt: &HostRuntime, text: &str) -> io::Result<SocketAddr> {
    let mut addresses = text.to_socket_addrs(rt)?;
    addresses
        .next()
        .ok_or(io::Error::from(ErrorKind::InvalidInput))
}

/// An address that was looked for, or this mistake where it isn't known.
fn known<'a>(found: io::Result<SocketAddr>, mistake: Mistake<'a>) -> Result<SocketAddr, Mistake<'a>>
    ensures ok { IfOk result (λ address. found ≡ Ok address) }
    ensures err { IfErr result (IsUnknown mistake.entry) }
{
    match found {
        Ok(address) => Ok(address),
        Err(error) if error.kind() == ErrorKind::OutOfMemory => Err(Mistake::NoMemory),
        Err(_) => Err(mistake),
    }
}

/// Adds the address of one more desk.
fn add<'a>(desks: &mut Vec<Option<SocketAddr>>, address: SocketAddr) -> Result<(), Mistake<'a>>
    ensures ok { OnOk result (desks.new.items ≡ desks.old.items ++ Some address ∷ []) }
    ensures err { IfErr result (λ m. m ≡ wrong.NoMemory) }
{
    match desks.push(Some(address)) {
        Ok(()) => Ok(()),
        Err(_) => Err(Mistake::NoMemory),
    }
}

/// The first address that an option names.
pub fn address_at<'a>(
    rt: &HostRuntime,
    found: &ArgMatches<'_>,
    id: &'static str,
) -> Result<SocketAddr, Mistake<'a>>
    ensures ok { IfOk result (λ _. is_given (found_of found.now) id.now ≡ true) }
    ensures err { IfErr result (IsUnknown (wrong.Address id.entry)) }
{
    match found.get_str(id) {
        Some(text) => known(address_of(rt, text), Mistake::Address(id)),
        None => Err(Mistake::Address(id)),
    }
}

/// The number of the hall that no file describes.
fn number_of<'a>(found: &ArgMatches<'_>) -> Result<u32, Mistake<'a>>
    ensures ok { IfOk result (HasNumber (found_of found.now) (codes "hall")) }
    ensures err { IfErr result (IsMistakeIn true (found_of found.now)) }
{
    match u32::try_from(number_at(found, "hall")?) {
        Ok(hall) => Ok(hall),
        Err(_) => Err(Mistake::Number("hall")),
    }
}

/// The desks at the addresses of `--to`.
fn desks_at<'a>(
    rt: &HostRuntime,
    found: &ArgMatches<'_>,
) -> Result<Vec<Option<SocketAddr>>, Mistake<'a>>
    ensures ok { IfOk result
        (λ desks. count_of (found_of found.now) (codes "to") ≡ Some (vec_len desks)) }
    ensures err { IfErr result (IsMistakeIn true (found_of found.now)) }
{
    let Some(texts) = found.get_strs("to") else {
        return Err(Mistake::Address("to"));
    };
    let mut desks = Vec::new(rt.alloc());
    for text in texts {
        let address = known(address_of(rt, text), Mistake::Address("to"))?;
        add(&mut desks, address)?;
    }
    Ok(desks)
}

/// All desks of a hall's file.
fn desks_of<'a>(rt: &HostRuntime, file: &HallFile) -> Result<Vec<Option<SocketAddr>>, Mistake<'a>>
    ensures ok { IfOk result (λ desks. vec_len desks ≡ vec_len file.now.desks) }
    ensures err { IfErr result (IsMistakeOfDesk file.now) }
{
    let mut desks = Vec::new(rt.alloc());
    for place in 0..file.desk_count() {
        let number = place + 1;
        let Some(text) = file.address_of(number) else {
            return Err(Mistake::Unknown(number));
        };
        let address = known(address_of(rt, text), Mistake::Unknown(number))?;
        add(&mut desks, address)?;
    }
    Ok(desks)
}

/// The hall that the file at a path describes.
fn file_at<'a>(rt: &HostRuntime, path: &'a str) -> Result<HallFile, Mistake<'a>>
    ensures ok { IfOk result (λ file. (bytes : List ℕ) × Says bytes file) }
    ensures err { IfErr result (IsMistakeOfFile path.now) }
{
    match read_hall_at(rt, path) {
        Ok(file) => Ok(file),
        Err(
            HallOpenFault::Refused {
                fault: HallFault::NoMemory,
                ..
            },
        ) => Err(Mistake::NoMemory),
        Err(fault) => Err(Mistake::File(fault)),
    }
}

/// The key that the file at a path has.
fn key_at<'a>(rt: &HostRuntime, path: &str) -> Result<Option<[u8; 32]>, Mistake<'a>>
    ensures ok { IfOk result (IsKeyOf true) }
    ensures err { IfErr result IsMistakeOfKey }
{
    match read_key_at(rt, path) {
        Ok(key) => Ok(Some(key)),
        Err(fault) => Err(Mistake::Key(fault)),
    }
}

/// The key that the option names, if it is there.
fn given_key<'a>(rt: &HostRuntime, found: &ArgMatches<'_>) -> Result<Option<[u8; 32]>, Mistake<'a>>
    ensures ok { IfOk result (IsKeyOf (is_given (found_of found.now) (codes "key"))) }
    ensures err { IfErr result IsMistakeOfKey }
{
    let Some(path) = found.get_str("key") else {
        return Ok(None);
    };
    key_at(rt, path)
}

/// The key that the hall's file at a path names, if it does.
fn file_key<'a>(
    rt: &HostRuntime,
    path: &str,
    file: &HallFile,
) -> Result<Option<[u8; 32]>, Mistake<'a>>
    ensures ok { IfOk result (IsKeyOf (is_some (key_text file.now))) }
    ensures err { IfErr result IsMistakeOfKey }
{
    let Some(named) = &file.key else {
        return Ok(None);
    };
    let Ok(path) = key_path(rt.alloc(), path, named) else {
        return Err(Mistake::NoMemory);
    };
    key_at(rt, &path)
}

/// The key that the option names, or else the hall's file at a path.
fn key_of<'a>(
    rt: &HostRuntime,
    found: &ArgMatches<'_>,
    path: &str,
    file: &HallFile,
) -> Result<Option<[u8; 32]>, Mistake<'a>>
    ensures ok { IfOk result (IsKeyOf
        (is_given (found_of found.now) (codes "key") || is_some (key_text file.now))) }
    ensures err { IfErr result IsMistakeOfKey }
{
    if found.get_str("key").is_some() {
        return given_key(rt, found);
    }
    file_key(rt, path, file)
}

/// The hall that `--hall` and `--to` name.
fn given_hall<'a>(rt: &HostRuntime, found: &ArgMatches<'_>) -> Result<FoundHall, Mistake<'a>>
    ensures ok { IfOk result (IsGiven (found_of found.now)) }
    ensures err { IfErr result (IsMistakeIn true (found_of found.now)) }
{
    let hall = number_of(found)?;
    let key = given_key(rt, found)?;
    let desks = desks_at(rt, found)?;
    Ok(FoundHall { hall, desks, key })
}

/// The hall that the options of [`with_desks`](crate::hall_options::with_desks) name, its desks,
/// and its key: that of `--key`, or else the one that the hall's file names. What is wrong with the
/// hall's file or with `--hall` is said first, then what is wrong with the key's file, then with an
/// address.
pub fn hall_of<'a>(rt: &HostRuntime, found: &ArgMatches<'a>) -> Result<FoundHall, Mistake<'a>>
    ensures ok { IfOk result (IsHallOf (found_of found.now)) }
    ensures err { IfErr result (IsHallMistake (found_of found.now)) }
{
    if found.get_str("hall").is_some() {
        return given_hall(rt, found);
    }
    let path = found.get_str("config").unwrap_or(HALL_FILE);
    let file = file_at(rt, path)?;
    let key = key_of(rt, found, path, &file)?;
    let desks = desks_of(rt, &file)?;
    Ok(FoundHall {
        hall: file.hall,
        desks,
        key,
    })
}
