//! Errands: one request to a desk, and its answer printed.

ghost use Rattle.std.specs.Prelude.{◌≡◌, IfOk, IfErr, OnOk};
ghost use Rattle.batch.specs.Dialing.{told};
ghost use Rattle.wire.specs.Ranges.{IsBody, IsDesk, IsFrame};
ghost use Rattle.arguments.specs.Asking.{HasId};
ghost use Rattle.desk_requests.specs.Errands.{DoesErrand, FailsErrand, GetsAnswer, GetsNone};
ghost use Rattle.desk_requests.specs.Errands.{answer_text, frame_of, version_of, what_of};
ghost use Rattle.desk_requests.specs.declared.fault.DeskFault.TheVariants as desk_fault;

use crate::fault::DeskFault;
use arguments::ClientRequest;
use batch::{Contact, Dial, ask_over};
use client::{reply_text, sheet_version};
use lines::{RunFault, write_text};
use std::alloc::{AllocError, Global};
use std::fmt;
use std::io::Write;
use wire::{Frame, FrameBody, Version};

/// A request and the desk that it is for.
#[derive(Clone, Copy)]
pub struct Errand<'a> {
    /// The number of the hall.
    pub hall: u32,
    /// The desk's number, 1 to 5.
    pub desk: u8,
    /// Where it is asked, and how long it is waited for.
    pub contact: Contact<'a>,
    pub request: ClientRequest,
    /// Whether it is printed which desk did what was asked.
    pub names: bool,
}

/// What a frame says that makes a request.
fn what_of(request: ClientRequest) -> FrameBody
    requires { HasId request }
    ensures what { result ≡ what_of request }
    ensures body { IsBody (version_of request) result }
{
    match request {
        ClientRequest::Ask { id } => FrameBody::Ask { id },
        ClientRequest::Sheet {
            event,
            round,
            position,
            style,
        } => FrameBody::Sheet {
            event,
            round,
            position,
            style,
        },
        ClientRequest::Tick => FrameBody::Tick,
        ClientRequest::Stop => FrameBody::Stop,
    }
}

/// The first version of the wire that has a frame for a request and all that it may be answered.
fn version_of(request: ClientRequest) -> Version
    ensures { result ≡ version_of request }
{
    match request {
        ClientRequest::Sheet { event, .. } => sheet_version(event),
        ClientRequest::Ask { .. } => Version::Four,
        ClientRequest::Tick | ClientRequest::Stop => Version::One,
    }
}

/// The frame of an errand, from a client, which is 0, to the desk.
///
/// # Errors
///
/// `BadDesk` where the desk's number is not 1 to 5.
pub(crate) fn frame_of(errand: Errand<'_>) -> Result<Frame, DeskFault>
    requires { HasId errand.request }
    ensures frame { IfOk result (λ f. f ≡ frame_of errand.entry) }
    ensures spelled { IfOk result IsFrame }
    ensures allowed { OnOk result (IsDesk errand.entry.desk) }
    ensures err { IfErr result (λ f. (f ≡ desk_fault.BadDesk) × (¬ IsDesk errand.entry.desk)) }
{
    if errand.desk == 0 || errand.desk > 5 {
        return Err(DeskFault::BadDesk);
    }
    Ok(Frame {
        version: version_of(errand.request),
        hall: errand.hall,
        from: 0,
        to: errand.desk,
        what: what_of(errand.request),
    })
}

/// Asks a desk once, and gives its answer.
fn answered<D: Dial>(dial: &mut D, errand: Errand<'_>) -> Result<FrameBody, DeskFault>
    requires { HasId errand.request }
    ensures ok { IfOk result (λ answer. GetsAnswer errand.entry answer
        (told errand.entry.contact D.dialed dial.old dial.new)) }
    ensures allowed { OnOk result (IsDesk errand.entry.desk) }
    ensures err { IfErr result (λ f. GetsNone f errand.entry
        (told errand.entry.contact D.dialed dial.old dial.new)) }
{
    let asked = match frame_of(errand) {
        Ok(asked) => asked,
        Err(fault) => return Err(fault),
    };
    match ask_over(dial, errand.contact, &asked) {
        Ok(answer) => Ok(answer),
        Err(fault) => Err(DeskFault::from(fault)),
    }
}

/// What is printed of a desk that did what was asked, where it is named.
#[derive(Drop)]
struct DoneNotice<'a> {
    desk: u8,
    address: &'a str,
}

impl fmt::Display for DoneNotice<'_> {
    ghost use Rattle.std.specs.Prelude.{Some};
    ghost use Rattle.desk_requests.specs.Errands.{did_text};

    ghost output = { λ v. Some (did_text v.desk v.address.now) };

    fn fmt<W: fmt::Write>(&self, f: &mut fmt::Formatter<W>) -> fmt::Result {
        f.write_str("ok: desk ")?;
        self.desk.fmt(f)?;
        f.write_str(" at ")?;
        f.write_str(self.address)
    }
}

/// What is printed of the answer to an errand: as [`reply_text`] has it, and of a desk that did
/// what was asked also which one, where it is to be named.
fn answer_text(alloc: Global, errand: Errand<'_>, answer: FrameBody) -> Result<Vec<u8>, AllocError>
    ensures { IfOk result (λ text. text.items ≡ answer_text errand.entry answer) }
{
    match answer {
        FrameBody::Fine if errand.names => {
            let did = DoneNotice {
                desk: errand.desk,
                address: errand.contact.address,
            };
            let line = format!(in alloc; "{did}\n")?;
            Vec::from_slice(alloc, line.as_bytes())
        }
        other => reply_text(alloc, other),
    }
}

/// Asks a desk and prints its answer.
///
/// # Errors
///
/// - `BadDesk` before anything is opened.
/// - `CannotConnect` where the connection to the address is not accepted.
/// - `Refused` where the desk refuses, `NoAnswer` where no answer comes, `Late` where none comes as
///   long as the desk is waited for, `NoKey`, `OtherKey` or `HasKey` where it does not speak under
///   the contact's key, `Write` where the request or the answer cannot be written, `NoMemory` where
///   memory runs out.
pub fn carry<D: Dial, W: Write>(
    alloc: Global,
    dial: &mut D,
    errand: Errand<'_>,
    writer: &mut W,
) -> Result<(), DeskFault>
    requires { HasId errand.request }
    ensures ok { OnOk result (DoesErrand errand.entry
        (told errand.entry.contact D.dialed dial.old dial.new)
        (W.contents writer.old) (W.contents writer.new)) }
    ensures err { IfErr result (λ f. FailsErrand f errand.entry
        (told errand.entry.contact D.dialed dial.old dial.new)
        (W.contents writer.old) (W.contents writer.new)) }
{
    let answer = match answered(dial, errand) {
        Ok(answer) => answer,
        Err(fault) => return Err(fault),
    };
    let Ok(text) = answer_text(alloc, errand, answer) else {
        return Err(DeskFault::Run(RunFault::NoMemory));
    };
    match write_text(writer, &text) {
        Ok(()) => Ok(()),
        Err(_) => Err(DeskFault::Run(RunFault::Write)),
    }
}
