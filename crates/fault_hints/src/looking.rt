//! What is looked at again, for each fault.

ghost use Rattle.std.specs.Prelude.{◌≡◌, if◌then◌else◌, option_map};
ghost use Rattle.fault_hints.specs.Judged.{length_in, other_desk};
ghost use Rattle.fault_hints.specs.Looking.{IsFound, IsHeard, IsOfAsking, IsOfLog, IsOfServing};
ghost use Rattle.fault_hints.specs.declared.findings.Finding.TheVariants as finding;

use crate::addresses;
use crate::files::{of_damage, of_device, of_reading};
use crate::findings::{AddressFinding, FileFinding, Finding};
use crate::matters::FaultSubject;
use crate::told::{length_in, of_key, other_desk};
use batch::{Contact, Dial};
use client::status_request;
use desk_requests::{DeskFault, TcpDialer};
use wire::ClientRefusal;

/// What was met of the file at a path.
fn of_file<'a>(path: &'a str, what: Option<FileFinding>) -> Option<Finding<'a>>
    ensures { result ≡ option_map (λ w. finding.File path.entry w) what }
{
    what.map(|what| Finding::File { path, what })
}

/// What was met at an address.
fn of_address<'a>(address: &'a str, what: Option<AddressFinding>) -> Option<Finding<'a>>
    ensures { result ≡ option_map (λ w. finding.Address address.entry w) what }
{
    what.map(|what| Finding::Address { address, what })
}

/// What was met of a desk that was to serve.
fn of_serving<'a>(
    rt: &HostRuntime,
    fault: DeskFault,
    store: &'a str,
    address: &'a str,
) -> Option<Finding<'a>>
    ensures { IsOfServing fault store.entry address.entry result }
{
    match fault {
        DeskFault::StoreDevice | DeskFault::StoreDown => of_file(store, of_device(rt, store)),
        DeskFault::DamagedStore => of_file(store, of_damage(rt, store)),
        DeskFault::WrongDesk => of_file(store, Some(FileFinding::OtherDesk)),
        DeskFault::CannotListen => of_address(address, addresses::of_serving(rt, address)),
        _ => None,
    }
}

/// What was met of a file whose log was to be read.
fn of_log<'a>(rt: &HostRuntime, fault: DeskFault, store: &'a str) -> Option<Finding<'a>>
    ensures { IsOfLog fault store.entry result }
{
    match fault {
        DeskFault::StoreDevice => of_file(store, of_reading(rt, store)),
        DeskFault::DamagedStore => of_file(store, of_damage(rt, store)),
        _ => None,
    }
}

/// What a desk says that is asked how it is: which one it is, where it is not the one that was
/// asked, and else how long its log is, where `wants_length`.
fn of_desk<'a>(
    rt: &HostRuntime,
    hall: u32,
    desk: u8,
    contact: Contact<'_>,
    wants_length: bool,
) -> Option<Finding<'a>>
    ensures { IsHeard desk
        (λ given. (if wants_length then length_in given else other_desk given hall desk)) result }
{
    if desk == 0 || desk > 5 {
        return None;
    }
    let mut dial = TcpDialer::new(rt);
    if dial.dial(contact).is_err() {
        return None;
    }
    let Ok(given) = dial.ask(&status_request(hall, desk)) else {
        return None;
    };
    if wants_length {
        length_in(&given)
    } else {
        other_desk(&given, hall, desk)
    }
}

/// What was met of a desk that was asked.
fn of_asking<'a>(
    rt: &HostRuntime,
    fault: DeskFault,
    hall: u32,
    desk: u8,
    contact: Contact<'a>,
) -> Option<Finding<'a>>
    ensures { IsOfAsking fault hall desk contact.entry result }
{
    match fault {
        DeskFault::CannotConnect => {
            let address = contact.address;
            of_address(address, addresses::of_asking(rt, address, contact.patience))
        }
        DeskFault::Refused {
            refusal: ClientRefusal::Foreign,
        } => of_desk(rt, hall, desk, contact, false),
        DeskFault::Refused {
            refusal: ClientRefusal::NotThere,
        } => of_desk(rt, hall, desk, contact, true),
        DeskFault::Refused {
            refusal: ClientRefusal::HallDiffers,
        } => Some(Finding::Differs),
        _ => None,
    }
}

/// Looks again after a fault, and says what was met, where there is something to say.
pub(crate) fn found<'a>(
    rt: &HostRuntime,
    fault: DeskFault,
    about: FaultSubject<'a>,
) -> Option<Finding<'a>>
    ensures { IsFound fault about.entry result }
{
    if let Some(what) = of_key(fault) {
        return Some(Finding::Key { what });
    }
    match about {
        FaultSubject::Finding => None,
        FaultSubject::Serving { store, address } => of_serving(rt, fault, store, address),
        FaultSubject::Log { store } => of_log(rt, fault, store),
        FaultSubject::Asking {
            hall,
            desk,
            contact,
        } => of_asking(rt, fault, hall, desk, contact),
    }
}
