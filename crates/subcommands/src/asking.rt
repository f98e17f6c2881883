//! A desk that is asked once, for its newest sheet, or for its log.

ghost use Rattle.std.specs.Prelude.{◌≡◌};
ghost use Rattle.std.specs.Io.KnownBytes.{Keeps};
ghost use Rattle.arguments.specs.Asking.{HasId};
ghost use Rattle.subcommands.specs.Asking.{EndsCarry, EndsCopyLog, EndsNewest, EndsRequest};
ghost use Rattle.subcommands.specs.Asking.{EndsUnnamed, is_of_file, lacks_name, log_form};
ghost use Rattle.subcommands.specs.Places.{NamesDesk, reach};

use crate::finding::{contact_of, found_at};
use crate::telling::{tell_asked, tell_unnamed};
use arguments::{ClientRequest, LogFormOption, Place};
use batch::{Dial, Receiver, RoundSheet};
use desk_requests::{Errand, ResultOwner, ShownEntries, carry, print_log, print_newest};
use std::io::Write;

/// Whether the desk is one of a file's hall.
fn is_of_file(place: Place<'_>) -> bool
    ensures { result ≡ is_of_file place.entry }
{
    match place {
        Place::Desk { .. } => false,
        Place::File { .. } => true,
    }
}

/// Whether a desk is to stop, and none is named.
fn lacks_name(place: Place<'_>, request: ClientRequest) -> bool
    ensures { result ≡ lacks_name place.entry request }
{
    match (place, request) {
        (Place::File { desk: None, .. }, ClientRequest::Stop) => true,
        _ => false,
    }
}

/// Asks a desk and prints its answer, as [`carry`] does, and which desk it is where it did what was
/// asked and is to be named, and returns the exit status.
fn carry_named<D: Dial, W: Write, F: Write>(
    rt: &HostRuntime,
    dial: &mut D,
    place: Place<'_>,
    patience: u32,
    request: ClientRequest,
    names: bool,
    explains: bool,
    writer: &mut W,
    faults: &mut F,
) -> u8
    requires { HasId request }
    ensures ends { EndsRequest place.entry patience request names result
        (reach D.dialed F.contents dial.old dial.new faults.old)
        (W.contents writer.old) (W.contents writer.new) }
    ensures quiet { result ≡ 0 → NamesDesk place.entry
        → Keeps (F.contents faults.old) (F.contents faults.new) }
{
    let found = match found_at(rt, dial, place, patience, explains, faults) {
        Ok(found) => found,
        Err(status) => return status,
    };
    let contact = contact_of(&found, patience);
    let errand = Errand {
        hall: found.hall,
        desk: found.desk,
        contact,
        request,
        names,
    };
    let asked = carry(rt.alloc(), dial, errand, writer);
    tell_asked(rt, faults, asked, &found, contact, explains)
}

/// Says which desk of a file's hall answers, since the arguments have to name one, and returns the
/// exit status.
fn unnamed_at<D: Dial, F: Write>(
    rt: &HostRuntime,
    dial: &mut D,
    place: Place<'_>,
    patience: u32,
    explains: bool,
    faults: &mut F,
) -> u8
    ensures { EndsUnnamed place.entry patience result
        (reach D.dialed F.contents dial.old dial.new faults.old) }
{
    match found_at(rt, dial, place, patience, explains, faults) {
        Ok(found) => tell_unnamed(faults, found.desk, found.address.as_str()),
        Err(status) => status,
    }
}

/// Asks a desk and prints its answer, as [`carry`] does, and returns the exit status. Where a desk
/// of a file's hall is to stop and none is named, no desk is asked to stop: a line says which one
/// answers, and the status is 2.
pub fn carry_at<D: Dial, W: Write, F: Write>(
    rt: &HostRuntime,
    dial: &mut D,
    place: Place<'_>,
    patience: u32,
    request: ClientRequest,
    explains: bool,
    writer: &mut W,
    faults: &mut F,
) -> u8
    requires { HasId request }
    ensures ends { EndsCarry place.entry patience request result
        (reach D.dialed F.contents dial.old dial.new faults.old)
        (W.contents writer.old) (W.contents writer.new) }
    ensures quiet { result ≡ 0 → NamesDesk place.entry
        → Keeps (F.contents faults.old) (F.contents faults.new) }
{
    if lacks_name(place, request) {
        return unnamed_at(rt, dial, place, patience, explains, faults);
    }
    let names = is_of_file(place);
    carry_named(
        rt, dial, place, patience, request, names, explains, writer, faults,
    )
}

/// Prints the newest sheet of a round at a desk, as [`print_newest`] does, and returns the exit
/// status.
pub fn newest_at<D: Dial, W: Write, F: Write>(
    rt: &HostRuntime,
    dial: &mut D,
    place: Place<'_>,
    patience: u32,
    sheet: RoundSheet,
    explains: bool,
    writer: &mut W,
    faults: &mut F,
) -> u8
    ensures ends { EndsNewest place.entry patience sheet result
        (reach D.dialed F.contents dial.old dial.new faults.old)
        (W.contents writer.old) (W.contents writer.new) }
    ensures quiet { result ≡ 0 → NamesDesk place.entry
        → Keeps (F.contents faults.old) (F.contents faults.new) }
{
    let found = match found_at(rt, dial, place, patience, explains, faults) {
        Ok(found) => found,
        Err(status) => return status,
    };
    let contact = contact_of(&found, patience);
    let receiver = Receiver {
        hall: found.hall,
        desk: found.desk,
        awaits: false,
    };
    let asked = print_newest(rt.alloc(), dial, contact, receiver, sheet, writer);
    tell_asked(rt, faults, asked, &found, contact, explains)
}

/// In which form a log is printed.
fn log_form(form: LogFormOption) -> desk_requests::LogForm
    ensures { result ≡ log_form form }
{
    match form {
        LogFormOption::Lines => desk_requests::LogForm::Lines,
        LogFormOption::Rows => desk_requests::LogForm::Rows(ShownEntries::All),
        LogFormOption::ChangesOf {
            event,
            round,
            number,
        } => desk_requests::LogForm::Rows(ShownEntries::ChangesOf(ResultOwner {
            event,
            round,
            number,
        })),
    }
}

/// Prints the log of a desk that runs from a position on, as [`print_log`] does, and returns the
/// exit status.
pub fn copy_log_at<D: Dial, W: Write, F: Write>(
    rt: &HostRuntime,
    dial: &mut D,
    place: Place<'_>,
    patience: u32,
    from: u32,
    form: LogFormOption,
    explains: bool,
    writer: &mut W,
    faults: &mut F,
) -> u8
    ensures ends { EndsCopyLog place.entry patience from (log_form form) result
        (reach D.dialed F.contents dial.old dial.new faults.old)
        (W.contents writer.old) (W.contents writer.new) }
    ensures quiet { result ≡ 0 → NamesDesk place.entry
        → Keeps (F.contents faults.old) (F.contents faults.new) }
{
    let found = match found_at(rt, dial, place, patience, explains, faults) {
        Ok(found) => found,
        Err(status) => return status,
    };
    let contact = contact_of(&found, patience);
    let receiver = Receiver {
        hall: found.hall,
        desk: found.desk,
        awaits: false,
    };
    let form = log_form(form);
    let asked = print_log(rt.alloc(), dial, contact, receiver, form, from, writer);
    tell_asked(rt, faults, asked, &found, contact, explains)
}
