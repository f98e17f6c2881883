//! A desk that serves, and how it ends.

ghost use Rattle.std.specs.Prelude.{◌≡◌, ◌≤◌, IsTrue, length, map, option_map, string_bytes};
ghost use Rattle.std.specs.Io.KnownBytes.{Keeps};
ghost use Rattle.desk.specs.Statuses.{EndsServe, EndsServeHall, calls, fault_of_serve};
ghost use Rattle.subcommands.specs.Begun.{AsksFirst};

use arguments::HallService;
use batch::Dial;
use desk_choice::{hall_key_file, hall_of_file, key_of_hall};
use desk_requests::{DeskFault, Inquiry, tell};
use hall_file::HallFile;
use hall_file::service::{Service, StoreOrigin};
use lines::RunFault;
use serve::{ServeFault, has_bytes, serve};
use sqlite::Unknown;
use std::io::Write;
use subcommands::{addresses_of, entry_key_file, may_make, service_of, tell_missing, tell_service};

/// The fault of a desk that serves.
fn fault_of_serve(fault: ServeFault) -> DeskFault
    ensures { result ≡ fault_of_serve fault }
{
    match fault {
        ServeFault::BadCount => DeskFault::Run(RunFault::BadCount),
        ServeFault::BadDesk => DeskFault::BadDesk,
        ServeFault::SameAddresses => DeskFault::SameAddresses,
        ServeFault::NoHallKey => DeskFault::NoHallKey,
        ServeFault::KeyFile(fault) => DeskFault::KeyFile(fault),
        ServeFault::SameKeys => DeskFault::SameKeys,
        ServeFault::NoStore => DeskFault::NoStore,
        ServeFault::StoreThere => DeskFault::StoreThere,
        ServeFault::UnknownHost { desk } => DeskFault::UnknownHost { desk },
        ServeFault::WrongDesk => DeskFault::WrongDesk,
        ServeFault::Damaged => DeskFault::DamagedStore,
        ServeFault::Device => DeskFault::StoreDevice,
        ServeFault::CannotListen => DeskFault::CannotListen,
        ServeFault::Down => DeskFault::StoreDown,
        ServeFault::Write => DeskFault::Run(RunFault::Write),
        ServeFault::NoMemory => DeskFault::Run(RunFault::NoMemory),
    }
}

/// Runs a desk, as [`serve`] does, and returns the exit status.
pub fn run_service<W: Write, F: Write>(
    rt: &HostRuntime,
    service: Service<'_>,
    explains: bool,
    writer: &mut W,
    faults: &mut F,
) -> u8
    ensures ends { EndsServe result service.entry (W.contents writer.old) (W.contents writer.new) }
    ensures quiet { result ≡ 0 → Keeps (F.contents faults.old) (F.contents faults.new) }
{
    match serve(rt, service, Unknown, writer) {
        Ok(()) => 0,
        Err(fault) => tell_service(rt, faults, fault_of_serve(fault), service, explains),
    }
}

/// The path of a key's file, where there is one.
fn path_of(file: &Option<String>) -> Option<&str>
    ensures { option_map (λ f. f.now) result ≡ option_map string_bytes file.now }
{
    match file {
        Some(file) => Some(file.as_str()),
        None => None,
    }
}

/// Whether the desk that is wanted may serve: where its store is to be made, and no file is there,
/// the desks of the hall are asked first, and it may not where one has a command, or heard of one
/// by this desk, or where none answers in a hall that is not new. Where the hall's key can't be
/// read none is asked: the desk will not serve.
fn may_serve<D: Dial, F: Write>(
    rt: &HostRuntime,
    dial: &mut D,
    file: &str,
    wanted: HallService<'_>,
    hall: &HallFile,
    addresses: &[&str],
    faults: &mut F,
) -> bool
    requires { length addresses.now ≤ 5 }
    ensures asked { AsksFirst file.entry wanted.entry hall.now (map (λ a. a.now) addresses.now)
        result (D.dialed dial.old) (D.dialed dial.new) }
    ensures quiet { IsTrue result → Keeps (F.contents faults.old) (F.contents faults.new) }
{
    let options = wanted.options;
    let StoreOrigin::New = options.making else {
        return true;
    };
    if !matches!(has_bytes(rt, options.store), Ok(false)) {
        return true;
    }
    let Ok(key) = key_of_hall(rt, file, options.key, hall) else {
        return true;
    };
    let inquiry = Inquiry {
        hall: hall.hall,
        addresses,
        patience: 2,
        key,
    };
    may_make(dial, inquiry, options.desk, wanted.new_hall, faults)
}

/// Runs a desk of the hall that a file describes, and returns the exit status. Its key's file is
/// the one that is wanted, or else the one that the hall's file names; its entry key's file is the
/// one that is wanted, or else, beside a key, `entry.key` beside the hall's file, if it is there.
/// The status is 3 where its store is to be made, and may not be: `may_serve`.
pub fn run_hall_service<D: Dial, W: Write, F: Write>(
    rt: &HostRuntime,
    dial: &mut D,
    file: &str,
    wanted: HallService<'_>,
    explains: bool,
    writer: &mut W,
    faults: &mut F,
) -> u8
    ensures ends { EndsServeHall result file.entry wanted.entry
        (calls D.dialed dial.old dial.new) (W.contents writer.old) (W.contents writer.new) }
    ensures quiet { result ≡ 0 → Keeps (F.contents faults.old) (F.contents faults.new) }
{
    let hall = match hall_of_file(rt, file, faults) {
        Ok(hall) => hall,
        Err(fault) => return tell_missing(rt, faults, fault, explains),
    };
    let options = wanted.options;
    let key = match hall_key_file(rt.alloc(), file, options.key, &hall) {
        Ok(key) => key,
        Err(fault) => return tell(faults, fault),
    };
    let entry_key = match entry_key_file(rt, file, options, key.is_some()) {
        Ok(entry_key) => entry_key,
        Err(fault) => return tell(faults, fault),
    };
    let Ok(addresses) = addresses_of(rt.alloc(), &hall) else {
        return tell(faults, DeskFault::Run(RunFault::NoMemory));
    };
    if !may_serve(rt, dial, file, wanted, &hall, &addresses, faults) {
        return 3;
    }
    let service = service_of(
        hall.hall,
        options,
        path_of(&key),
        path_of(&entry_key),
        &addresses,
    );
    run_service(rt, service, explains, writer, faults)
}
