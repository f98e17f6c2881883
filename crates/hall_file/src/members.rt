//! What the members of a hall's file say.

ghost use Rattle.std.specs.Prelude.{◌≡◌, map, option_map, string_bytes, bytes_eq, length, Err};
ghost use Rattle.std.specs.{Prelude.IfOk, Prelude.IfErr, Prelude.IsTrue, Prelude.Ok, List.list_any};
ghost use Rattle.toml.specs.View.{view, table_view};
ghost use Rattle.hall_file.specs.{Addresses.is_count, Members.FailsDesks};
ghost use Rattle.hall_file.specs.Members.{unknown_name, hall_of, key_of, list_of, SaysDesks};
ghost use Rattle.hall_file.specs.Next.{IsNext, FailsNext, StopsDesks};

use crate::address::is_address;
use crate::fault::{DesksFault, DesksStop, HallNumberFault, KeyFault};
use std::alloc::Global;
use toml::{Table, Value};

/// The first member that a hall's file does not have.
pub(crate) fn unknown_in(table: &Table) -> Option<&str>
    ensures { option_map (λ s. s.now) result ≡ unknown_name (table_view table.now) }
{
    'members: for (name, _value) in table.iter() {
        let text = name.as_str();
        match text {
            "hall" | "desks" | "key" => {}
            _ => return Some(text),
        }
    }
    None
}

/// The hall's number that a value is.
pub(crate) fn number_of(value: &Value) -> Result<u32, HallNumberFault>
    ensures { result ≡ hall_of (view value.now) }
{
    let Some(number) = value.as_integer() else {
        return Err(HallNumberFault::NotInteger);
    };
    match u32::try_from(number) {
        Ok(hall) => Ok(hall),
        Err(_) => Err(HallNumberFault::OutOfRange),
    }
}

/// The path of a key's file that a value is.
pub(crate) fn key_in(value: &Value) -> Result<&str, KeyFault>
    ensures ok { IfOk result (λ path. key_of (view value.now) ≡ Ok path.now) }
    ensures err { IfErr result (λ fault. key_of (view value.now) ≡ Err fault) }
{
    match value.as_str() {
        Some("") => Err(KeyFault::Empty),
        Some(path) => Ok(path),
        None => Err(KeyFault::NotText),
    }
}

/// The items of a value that is a list of three or five.
fn items_of(value: &Value) -> Result<&[Value], DesksFault>
    ensures value { IfOk result (λ items. view value.now ≡ list_of (map view items.now)) }
    ensures count { IfOk result (λ items. IsTrue (is_count (length items.now))) }
    ensures err { IfErr result (FailsDesks (view value.now)) }
{
    let Some(items) = value.as_array() else {
        return Err(DesksFault::NotList);
    };
    let count = items.len();
    if count == 3 || count == 5 {
        Ok(items.as_slice())
    } else {
        Err(DesksFault::BadCount { count })
    }
}

/// Whether a text is one of these.
fn is_among(texts: &[String], text: &str) -> bool
    ensures { result ≡ list_any (bytes_eq text.now) (map string_bytes texts.now) }
{
    for other in texts {
        if text.as_bytes() == other.as_bytes() {
            return true;
        }
    }
    false
}

/// The address that an item is, after those of the desks in front.
fn next_address<'v>(front: &[String], item: &'v Value) -> Result<&'v str, DesksFault>
    ensures ok { IfOk result
        (λ text. IsNext (map string_bytes front.now) (view item.now) text.now) }
    ensures err { IfErr result (FailsNext (map string_bytes front.now) (view item.now)) }
{
    let desk = front.len() + 1;
    let Some(text) = item.as_str() else {
        return Err(DesksFault::NotText { desk });
    };
    if !is_address(text) {
        return Err(DesksFault::NotAddress { desk });
    }
    if is_among(front, text) {
        return Err(DesksFault::Twice { desk });
    }
    Ok(text)
}

/// The addresses of a hall's desks that a value says.
pub(crate) fn addresses_of(alloc: Global, value: &Value) -> Result<Vec<String>, DesksStop>
    ensures ok { IfOk result (λ desks. SaysDesks (view value.now) (map string_bytes desks.items)) }
    ensures err { IfErr result (StopsDesks (view value.now)) }
{
    let items = items_of(value)?;
    let mut desks = Vec::new(alloc);
    for item in items {
        let text = match next_address(&desks, item) {
            Ok(text) => text,
            Err(fault) => return Err(DesksStop::Fault(fault)),
        };
        desks.push(String::from_str(alloc, text)?)?;
    }
    Ok(desks)
}
