//! What is said of a fault: its line, and after it why it came. Of a second line that can't be
//! written, no more is said.

ghost use Rattle.std.specs.Prelude.{◌≡◌, OnOk};
ghost use Rattle.desk_requests.specs.Statuses.{status_of};
ghost use Rattle.subcommands.specs.Places.{EndsAs};

use batch::Contact;
use desk_choice::DeskAddress;
use desk_requests::{DeskFault, tell, tell_asking, tell_serving};
use fault_hints::{FaultSubject, explain, is_wanted};
use hall_file::service::Service;
use std::io::Write;

/// The exit status after a desk was asked. Of a fault it says why it came, with a second line where
/// that is asked for and on a terminal.
pub(crate) fn tell_asked<F: Write>(
    rt: &HostRuntime,
    faults: &mut F,
    asked: Result<(), DeskFault>,
    desk: &DeskAddress,
    contact: Contact<'_>,
    explains: bool,
) -> u8
    ensures ends { EndsAs asked result }
    ensures quiet { OnOk asked (F.contents faults.new ≡ F.contents faults.old) }
{
    let fault = match asked {
        Ok(()) => return 0,
        Err(fault) => fault,
    };
    let status = tell_asking(faults, fault, contact);
    if is_wanted(rt, explains) {
        let about = FaultSubject::Asking {
            hall: desk.hall,
            desk: desk.desk,
            contact,
        };
        let _ = explain(rt, faults, fault, about);
    }
    status
}

/// Says why no desk was found that could be asked, and returns the exit status. What is wrong with
/// a hall's file was written before.
pub fn tell_missing<F: Write>(
    rt: &HostRuntime,
    faults: &mut F,
    fault: DeskFault,
    explains: bool,
) -> u8
    ensures { result ≡ status_of fault }
{
    if fault == DeskFault::BadHallFile {
        return 3;
    }
    let status = tell(faults, fault);
    if fault == DeskFault::CannotConnect && is_wanted(rt, explains) {
        let _ = writeln!(
            faults,
            "no desk of the hall answers: `desk status` says of each why"
        );
    } else if is_wanted(rt, explains) {
        let _ = explain(rt, faults, fault, FaultSubject::Finding);
    }
    status
}

/// Says that the desk that is to stop has to be named, and which desk answers, and returns the exit
/// status.
pub(crate) fn tell_unnamed<F: Write>(faults: &mut F, desk: u8, address: &str) -> u8
    ensures { result ≡ 2 }
{
    let _ = writeln!(
        faults,
        "which desk is to stop? --desk {desk} stops the one at {address}"
    );
    2
}

/// As `tell_asked`, of a desk that was to serve.
pub fn tell_service<F: Write>(
    rt: &HostRuntime,
    faults: &mut F,
    fault: DeskFault,
    service: Service<'_>,
    explains: bool,
) -> u8
    ensures { result ≡ status_of fault }
{
    let status = tell_serving(faults, fault, service);
    let place = usize::from(service.options.desk).saturating_sub(1);
    let address = match service.addresses.get(place) {
        Some(text) => text,
        None => "",
    };
    if is_wanted(rt, explains) {
        let store = service.options.store;
        let _ = explain(rt, faults, fault, FaultSubject::Serving { store, address });
    }
    status
}

/// As `tell_asked`, of a desk's file whose log was to be printed.
pub fn tell_log<F: Write>(
    rt: &HostRuntime,
    faults: &mut F,
    fault: DeskFault,
    store: &str,
    explains: bool,
) -> u8
    ensures { result ≡ status_of fault }
{
    let status = tell(faults, fault);
    if is_wanted(rt, explains) {
        let _ = explain(rt, faults, fault, FaultSubject::Log { store });
    }
    status
}
