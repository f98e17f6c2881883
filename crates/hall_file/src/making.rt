//! A hall of addresses that are given.

ghost use Rattle.std.specs.Prelude.{◌≡◌, map, IfErr, IfOk};
ghost use Rattle.toml.specs.View.{view};
ghost use Rattle.hall_file.specs.{Halls.HasDesks, Halls.data_of, Next.StopsDesks};

use crate::fault::DesksStop;
use crate::hall_file::HallFile;
use crate::members::addresses_of;
use std::alloc::{AllocError, Global};
use toml::Value;

/// Texts as a list.
fn value_of(alloc: Global, texts: &[&str]) -> Result<Value, AllocError>
    ensures { IfOk result (λ v. view v ≡ data_of (map (λ t. t.now) texts.now)) }
{
    let mut items = Vec::new(alloc);
    for text in texts {
        items.push(Value::string(alloc, text)?)?;
    }
    Ok(Value::Array(items))
}

/// The hall of this number whose desks listen at these addresses, desk 1 first. It names no key.
///
/// # Errors
///
/// - `Fault` where these are not the addresses of a hall's desks, as the list of a hall's file: the
///   number of addresses comes first, then the first one that cannot be there.
/// - `NoMemory` where memory runs out.
pub fn hall_of_addresses(
    alloc: Global,
    hall: u32,
    addresses: &[&str],
) -> Result<HallFile, DesksStop>
    ensures ok { IfOk result (HasDesks hall (map (λ a. a.now) addresses.now)) }
    ensures err { IfErr result (StopsDesks (data_of (map (λ a. a.now) addresses.now))) }
{
    let value = value_of(alloc, addresses)?;
    let desks = addresses_of(alloc, &value)?;
    Ok(HallFile {
        hall,
        desks,
        key: None,
    })
}
