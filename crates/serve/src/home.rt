//! The desk that is to serve, and its hall.

ghost use Rattle.std.specs.Prelude.{◌≡◌, ◌↔◌, IfOk, IfErr, OnOk, IsTrue};
ghost use Rattle.store.specs.Ranges.{IsHome};
ghost use Rattle.serve.specs.{Addresses.AreApart, Addresses.HasTwins, Keys.IsKeyed, Keys.LacksKey};
ghost use Rattle.serve.specs.Printing.{IsAllowed, IsOfFile, IsRefused, home_of, texts_of};

use crate::doors::second_file;
use crate::fault::ServeFault;
use crate::twins::twins_in;
use hall_file::service::{Service, StoreOrigin};
use store::home::Home;

/// Whether it is said that the store is opened or made, as a hall's file does.
pub fn is_of_file(making: StoreOrigin) -> bool
    ensures { IsTrue result ↔ IsOfFile making }
{
    match making {
        StoreOrigin::AsNeeded => false,
        StoreOrigin::Open | StoreOrigin::New => true,
    }
}

/// The desk, of a hall of as many desks as there are addresses.
fn placed_home(service: Service<'_>) -> Result<Home, ServeFault>
    ensures ok { IfOk result (λ home. (home ≡ home_of service.entry) × IsHome home) }
    ensures err { IfErr result (λ f. IsRefused f service.entry) }
{
    let desks = match service.addresses.len() {
        3 => 3,
        5 => 5,
        _ => return Err(ServeFault::BadCount),
    };
    let home = Home {
        hall: service.hall,
        desk: service.options.desk,
        desks,
    };
    if !home.is_valid() {
        return Err(ServeFault::BadDesk);
    }
    Ok(home)
}

/// Refuses two equal addresses of a hall's file.
fn apart(service: Service<'_>) -> Result<(), ServeFault>
    ensures ok { OnOk result
        (IsOfFile service.entry.options.making → AreApart (texts_of service.entry)) }
    ensures err { IfErr result (λ f. (f ≡ ServeFault.SameAddresses)
        × IsOfFile service.entry.options.making × HasTwins (texts_of service.entry)) }
{
    if !is_of_file(service.options.making) {
        return Ok(());
    }
    match twins_in(service.addresses) {
        Some(_) => Err(ServeFault::SameAddresses),
        None => Ok(()),
    }
}

/// Refuses a second key, and open sheets, without a hall's key.
fn keyed(service: Service<'_>) -> Result<(), ServeFault>
    ensures ok { OnOk result (IsKeyed service.entry) }
    ensures err { IfErr result (λ f. (f ≡ ServeFault.NoHallKey) × LacksKey service.entry) }
{
    if service.options.key.is_some() {
        return Ok(());
    }
    if second_file(service).is_some() || service.options.open_sheets {
        return Err(ServeFault::NoHallKey);
    }
    Ok(())
}

/// The desk, of a hall of as many desks as there are addresses. Of a hall's file no two addresses
/// may be equal, and a second key and open sheets come beside a hall's key.
pub fn home_of(service: Service<'_>) -> Result<Home, ServeFault>
    ensures ok { IfOk result (λ home. (home ≡ home_of service.entry) × IsHome home) }
    ensures allowed { OnOk result (IsAllowed service.entry) }
    ensures err { IfErr result (λ f. IsRefused f service.entry) }
{
    let home = match placed_home(service) {
        Ok(home) => home,
        Err(fault) => return Err(fault),
    };
    if let Err(fault) = apart(service) {
        return Err(fault);
    }
    match keyed(service) {
        Ok(()) => Ok(home),
        Err(fault) => Err(fault),
    }
}
