//! What the file of a hall says.

ghost use Rattle.std.specs.Prelude.{IfOk, IfErr, List, option_map, string_bytes, ℕ};
ghost use Rattle.toml.specs.View.{table_view};
ghost use Rattle.hall_file.specs.Files.{HasHall, IsKnown, ListsDesks, Opens, Refuses};
ghost use Rattle.hall_file.specs.{Halls.Says, Halls.FindsDesks, Members.SaysKey};

use crate::fault::{DesksStop, HallFault, Member};
use crate::hall_file::HallFile;
use crate::line::{line_at, line_of};
use crate::members::{addresses_of, key_in, number_of, unknown_in};
use std::alloc::Global;
use toml::Table;

/// The most bytes of a file: 8 KiB.
pub const MOST_BYTES: usize = 8_192;

/// The document that a file is.
fn open_document(alloc: Global, bytes: &[u8]) -> Result<Table, HallFault>
    ensures ok { IfOk result (λ table. Opens bytes.now (table_view table)) }
    ensures err { IfErr result (Refuses bytes.now) }
{
    if bytes.len() > MOST_BYTES {
        return Err(HallFault::TooLong);
    }
    let text = match str::from_utf8(bytes) {
        Ok(text) => text,
        Err(error) => {
            let line = line_at(bytes, error.valid_up_to());
            return Err(HallFault::NotUtf8 { line });
        }
    };
    match toml::table_from_str(alloc, text) {
        Ok(table) => Ok(table),
        Err(reason) => match reason.span() {
            Some(span) => {
                let line = line_at(bytes, span.start);
                Err(HallFault::NotToml { line, reason })
            }
            None => Err(HallFault::NoMemory),
        },
    }
}

/// Refuses a document with a member that a hall's file does not have.
fn refuse_unknown(alloc: Global, bytes: &[u8], table: &Table) -> Result<(), HallFault>
    requires { Opens bytes.now (table_view table.now) }
    ensures ok { IfOk result (λ _. IsKnown bytes.now (table_view table.now)) }
    ensures err { IfErr result (Refuses bytes.now) }
{
    let Some(text) = unknown_in(table) else {
        return Ok(());
    };
    let line = line_of(alloc, bytes, text)?;
    let name = String::from_str(alloc, text)?;
    Err(HallFault::Unknown { line, name })
}

/// The number of the hall.
fn read_number(alloc: Global, bytes: &[u8], table: &Table) -> Result<u32, HallFault>
    requires { IsKnown bytes.now (table_view table.now) }
    ensures ok { IfOk result (HasHall bytes.now (table_view table.now)) }
    ensures err { IfErr result (Refuses bytes.now) }
{
    let Some(value) = table.get("hall") else {
        let member = Member::Hall;
        return Err(HallFault::Missing { member });
    };
    match number_of(value) {
        Ok(hall) => Ok(hall),
        Err(fault) => {
            let line = line_of(alloc, bytes, "hall")?;
            Err(HallFault::Hall { line, fault })
        }
    }
}

/// The addresses of the desks, in a file whose hall was read.
fn read_desks(alloc: Global, bytes: &[u8], table: &Table) -> Result<Vec<String>, HallFault>
    requires { Opens bytes.now (table_view table.now) }
    ensures ok { IfOk result (FindsDesks (table_view table.now)) }
    ensures err { IfErr result (λ fault. (hall : ℕ) → HasHall bytes.now (table_view table.now) hall
        → Refuses bytes.now fault) }
{
    let Some(value) = table.get("desks") else {
        let member = Member::Desks;
        return Err(HallFault::Missing { member });
    };
    match addresses_of(alloc, value) {
        Ok(desks) => Ok(desks),
        Err(DesksStop::NoMemory) => Err(HallFault::NoMemory),
        Err(DesksStop::Fault(fault)) => {
            let line = line_of(alloc, bytes, "desks")?;
            Err(HallFault::Desks { line, fault })
        }
    }
}

/// The path of the key's file, in a file whose hall and desks were read.
fn read_key(alloc: Global, bytes: &[u8], table: &Table) -> Result<Option<String>, HallFault>
    requires { Opens bytes.now (table_view table.now) }
    ensures ok { IfOk result (λ key. SaysKey (table_view table.now) (option_map string_bytes key)) }
    ensures err { IfErr result (λ fault. (hall : ℕ) (desks : List (List ℕ))
        → HasHall bytes.now (table_view table.now) hall
        → ListsDesks (table_view table.now) desks → Refuses bytes.now fault) }
{
    let Some(value) = table.get("key") else {
        return Ok(None);
    };
    match key_in(value) {
        Ok(path) => Ok(Some(String::from_str(alloc, path)?)),
        Err(fault) => {
            let line = line_of(alloc, bytes, "key")?;
            Err(HallFault::Key { line, fault })
        }
    }
}

/// The hall that a file describes, in TOML 1.1:
///
///     hall = 7
///     desks = ["192.168.50.11:7001", "192.168.50.12:7001", "192.168.50.13:7001"]
///     key = "hall.key"
///
/// `hall` is 0 to 4,294,967,295. `desks` has the addresses of three or five desks, desk 1 first,
/// each `HOST:PORT` with a port 1 to 65,535. No text is there twice. `key` may be left out: it is
/// the path of the file with the hall's key, and not empty. There is no other member. A byte-order
/// mark at the front is dropped.
///
/// # Errors
///
/// The first of these:
///
/// - `TooLong` where the file has more than 8,192 bytes.
/// - `NotUtf8` where it is not UTF-8, and `NotToml` where it is not TOML.
/// - `Unknown` where it has another member: the first in the order of the names' bytes.
/// - `Missing`, and then `Hall`, where `hall` is not there or is no such number.
/// - `Missing`, and then `Desks`, where `desks` is not there or is no such list. The number of its
///   items comes first, then the first item that cannot be there.
/// - `Key` where `key` is there and is no text, or is empty.
///
/// `NoMemory` where memory ran out. The line of a fault is where the member begins: the line after
/// the longest run of whole lines from the beginning that is a document without the member.
pub fn read_hall(alloc: Global, bytes: &[u8]) -> Result<HallFile, HallFault>
    ensures ok { IfOk result (Says bytes.now) }
    ensures err { IfErr result (Refuses bytes.now) }
{
    let table = open_document(alloc, bytes)?;
    refuse_unknown(alloc, bytes, &table)?;
    let hall = read_number(alloc, bytes, &table)?;
    let desks = read_desks(alloc, bytes, &table)?;
    let key = read_key(alloc, bytes, &table)?;
    Ok(HallFile { hall, desks, key })
}
