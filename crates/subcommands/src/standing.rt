//! How the desks of a hall are.

ghost use Rattle.std.specs.Prelude.{◌≡◌, ◌⊎◌, ◌≤◌, false, length, map, IfOk};
ghost use Rattle.desk_requests.specs.Polling.{outside};
ghost use Rattle.hall_file.specs.Halls.{texts_of};
ghost use Rattle.subcommands.specs.Standings.{AreFew, EndsAll, EndsAsked, EndsInquiry, EndsStatus};

use crate::machine::print_machine;
use crate::telling::tell_missing;
use arguments::DeskPlaces;
use batch::Dial;
use desk_choice::{hall_of_file, key_at, key_of_hall};
use desk_requests::{DeskFault, Inquiry, print_standings, tell, watch_standings};
use hall_file::HallFile;
use lines::{RunFault, WriteFailed};
use standings::Form;
use std::alloc::{AllocError, Global};
use std::io::Write;

/// The path of a hall's file where none describes the hall.
const HALL_FILE: &str = "hall.toml";

/// In which form the desks are reported, whether again each second, and whether what else has to
/// fit is reported after the desks.
#[derive(Clone, Copy)]
pub struct StatusOptions {
    pub form: Form,
    pub watches: bool,
    pub all: bool,
}

/// Asks the desks of an inquiry once, prints a report on them, and returns the exit status.
fn inquire_once<D: Dial, W: Write, F: Write>(
    rt: &HostRuntime,
    dial: &mut D,
    inquiry: Inquiry<'_>,
    form: Form,
    writer: &mut W,
    faults: &mut F,
) -> u8
    requires { length inquiry.addresses.now ≤ 5 }
    ensures { EndsInquiry result inquiry.entry form false
        (outside D.dialed W.contents dial.old dial.new writer.old writer.new) }
{
    match print_standings(rt.alloc(), dial, inquiry, form, writer) {
        Ok(status) => status,
        Err(fault) => tell(faults, fault),
    }
}

/// The exit status after a report with this one, where more was printed, or could not be.
fn status_after<F: Write>(faults: &mut F, status: u8, printed: Result<(), WriteFailed>) -> u8
    ensures { (result ≡ status) ⊎ (result ≡ 4) }
{
    match printed {
        Ok(()) => status,
        Err(_) => tell(faults, DeskFault::Run(RunFault::Write)),
    }
}

/// Asks the desks of an inquiry once, prints what else has to fit of them and of this machine, on
/// which the hall's file is at this path, and returns the exit status.
fn inquire_all<D: Dial, W: Write, F: Write>(
    rt: &HostRuntime,
    dial: &mut D,
    inquiry: Inquiry<'_>,
    form: Form,
    file: &str,
    writer: &mut W,
    faults: &mut F,
) -> u8
    requires { length inquiry.addresses.now ≤ 5 }
    ensures { EndsAll result inquiry.entry form
        (outside D.dialed W.contents dial.old dial.new writer.old writer.new) }
{
    let status = inquire_once(rt, dial, inquiry, form, writer, faults);
    let printed = print_machine(rt, dial, inquiry, file, writer);
    status_after(faults, status, printed)
}

/// Asks the desks of an inquiry, once or again and again, and returns the exit status.
fn inquire<D: Dial, W: Write, F: Write>(
    rt: &HostRuntime,
    dial: &mut D,
    inquiry: Inquiry<'_>,
    way: StatusOptions,
    file: &str,
    writer: &mut W,
    faults: &mut F,
) -> u8
    requires { length inquiry.addresses.now ≤ 5 }
    ensures { EndsAsked way.all result inquiry.entry way.form way.watches
        (outside D.dialed W.contents dial.old dial.new writer.old writer.new) }
{
    if way.all {
        return inquire_all(rt, dial, inquiry, way.form, file, writer, faults);
    }
    if way.watches {
        return match watch_standings(rt, dial, inquiry, way.form, writer) {
            Ok(()) => 0,
            Err(fault) => tell(faults, fault),
        };
    }
    inquire_once(rt, dial, inquiry, way.form, writer, faults)
}

/// The addresses of a hall's file, desk 1 first.
pub fn addresses_of<'a>(alloc: Global, hall: &'a HallFile) -> Result<Vec<&'a str>, AllocError>
    ensures { IfOk result (λ texts. map (λ t. t.now) texts.items ≡ texts_of hall.now) }
{
    let mut texts = Vec::new(alloc);
    for desk in &hall.desks {
        texts.push(desk.as_str())?;
    }
    Ok(texts)
}

/// Asks the desks of a hall how they are, prints a report on them, and returns the exit status:
/// that of [`print_standings`], or that of a fault. If the hall's file is invalid, or its key
/// cannot be read, it says so.
pub fn status_at<D: Dial, W: Write, F: Write>(
    rt: &HostRuntime,
    dial: &mut D,
    desks: DeskPlaces<'_>,
    patience: u32,
    way: StatusOptions,
    writer: &mut W,
    faults: &mut F,
) -> u8
    requires { AreFew desks }
    ensures { EndsStatus desks.entry patience way.form way.watches way.all result
        (outside D.dialed W.contents dial.old dial.new writer.old writer.new) }
{
    match desks {
        DeskPlaces::Addresses {
            hall,
            addresses,
            key,
        } => {
            let key = match key_at(rt, key) {
                Ok(key) => key,
                Err(fault) => return tell(faults, fault),
            };
            let inquiry = Inquiry {
                hall,
                addresses,
                patience,
                key,
            };
            inquire(rt, dial, inquiry, way, HALL_FILE, writer, faults)
        }
        DeskPlaces::File { file, key } => {
            let hall = match hall_of_file(rt, file, faults) {
                Ok(hall) => hall,
                Err(fault) => return tell_missing(rt, faults, fault, false),
            };
            let key = match key_of_hall(rt, file, key, &hall) {
                Ok(key) => key,
                Err(fault) => return tell(faults, fault),
            };
            let Ok(texts) = addresses_of(rt.alloc(), &hall) else {
                return tell(faults, DeskFault::Run(RunFault::NoMemory));
            };
            let inquiry = Inquiry {
                hall: hall.hall,
                addresses: &texts,
                patience,
                key,
            };
            inquire(rt, dial, inquiry, way, file, writer, faults)
        }
    }
}
