//! The text of a hall's file.

ghost use Rattle.std.specs.Prelude.{◌≡◌, ◌≢◌, ◌≤◌, [], map, option_map, string_bytes, length, IfOk};
ghost use Rattle.std.specs.Prelude.{Some};
ghost use Rattle.toml.specs.{Data.string, View.view, View.table_view};
ghost use Rattle.hall_file.specs.{Addresses.AreAddresses, Lines.IsDocument, Members.list_of};
ghost use Rattle.hall_file.specs.Files.{members_of, most_bytes};
ghost use Rattle.hall_file.specs.Halls.{Says, key_text, texts_of};

use crate::hall_file::HallFile;
use std::alloc::{AllocError, Global};
use toml::{Table, Value};

/// The addresses as a list.
fn list_of(alloc: Global, desks: &[String]) -> Result<Value, AllocError>
    ensures { IfOk result (λ v. view v ≡ list_of (map string (map string_bytes desks.now))) }
{
    let mut items = Vec::new(alloc);
    for desk in desks {
        items.push(Value::string(alloc, desk.as_str())?)?;
    }
    Ok(Value::Array(items))
}

/// The members of a hall's file.
fn table_of(
    alloc: Global,
    hall: u32,
    desks: &[String],
    key: Option<&str>,
) -> Result<Table, AllocError>
    ensures { IfOk result (λ t. table_view t
        ≡ members_of hall (map string_bytes desks.now) (option_map (λ k. k.now) key.entry)) }
{
    let addresses = list_of(alloc, desks)?;
    let mut table = Table::new(alloc);
    table.insert(String::from_str(alloc, "desks")?, addresses)?;
    let number = Value::Integer(i64::from(hall));
    table.insert(String::from_str(alloc, "hall")?, number)?;
    if let Some(path) = key {
        let value = Value::string(alloc, path)?;
        table.insert(String::from_str(alloc, "key")?, value)?;
    }
    Ok(table)
}

/// The text of a file that describes the hall: `desks` with an address on each line, then `hall`,
/// and `key` where there is one. [`read_hall`](crate::read_hall) gives back the same hall, where
/// the addresses and the key are such as it reads and the text has at most 8,192 bytes.
///
/// # Errors
///
/// Memory ran out.
pub fn print_hall(alloc: Global, file: &HallFile) -> Result<String, AllocError>
    ensures text { IfOk result (λ s. IsDocument (string_bytes s)
        (members_of file.now.hall (texts_of file.now) (key_text file.now))) }
    ensures reads_back { IfOk result (λ s. length (string_bytes s) ≤ most_bytes
        → AreAddresses (texts_of file.now) → key_text file.now ≢ Some []
        → Says (string_bytes s) file.now) }
{
    let hall = file.hall;
    let table = table_of(alloc, hall, &file.desks, file.key())?;
    match toml::table_to_string_pretty(alloc, &table) {
        Ok(text) => Ok(text),
        Err(_) => Err(AllocError),
    }
}
