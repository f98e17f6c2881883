//! How the desks of a hall are, asked one after the other and printed.

ghost use Rattle.std.specs.Prelude.{◌≡◌, ◌≢◌, ◌≤◌, ◌+◌, ◌∷◌, [], None, Some, false, length, IfErr};
ghost use Rattle.std.specs.{Prelude.IfOk, Prelude.IsTrue, Prelude.OnOk, List.AllByRecursion};
ghost use Rattle.batch.specs.Dialing.{place_of};
ghost use Rattle.wire.specs.Ranges.{IsDesk, IsFrame};
ghost use Rattle.desk_requests.specs.Polling.{AsksFor, FailsReport, IsPolled, IsPolledBy, PollsAll};
ghost use Rattle.desk_requests.specs.Polling.{PollsMore, Reports, Tries, foreign, id_asked};
ghost use Rattle.desk_requests.specs.Polling.{other_reply, others, outside, reply_to, request_of};
ghost use Rattle.desk_requests.specs.Watching.{FailsWatch, HasWatched};
ghost use Rattle.desk_requests.specs.declared.polling.Question.TheVariants as asking;
ghost use Rattle.standings.specs.declared.polled.StatusReply.TheVariants as reply;

use crate::comparing::compare;
use crate::fault::DeskFault;
use batch::{BatchFault, Contact, Dial, ask_over};
use client::{ClientFault, status_request, status_request_in_five};
use lines::{RunFault, write_text};
use standings::{Form, PolledDesk, StatusReply, report, status_of};
use std::alloc::{AllocError, Global};
use std::io::Write;
use std::thread;
use std::time::Duration;
use wire::{ClientRefusal, Frame, FrameBody, Version};

/// The desks of a hall that are asked how they are.
#[derive(Clone, Copy)]
pub struct Inquiry<'a> {
    /// The number of the hall.
    pub hall: u32,
    /// Where they are asked, at most five, desk 1 first.
    pub addresses: &'a [&'a str],
    /// For how many seconds each is waited for.
    pub patience: u32,
    /// The hall's key, where it has one.
    pub key: Option<[u8; 32]>,
}

/// What a desk is asked.
#[derive(Clone, Copy, Debug, PartialEq, Eq)]
enum Question {
    /// How it is, and how another one differs, in version 5 of the wire.
    Fully,
    /// How it is, which desks of programs before version 3 are not asked.
    Standing,
    /// What became of an id, which each desk is asked.
    Id,
}

/// The request that asks what became of id 1, in version 1 of the wire.
fn id_request(hall: u32, desk: u8) -> Frame
    ensures request { result ≡ id_asked hall desk }
    ensures spelled { IsDesk desk → IsFrame result }
{
    Frame {
        version: Version::One,
        hall,
        from: 0,
        to: desk,
        what: FrameBody::Ask { id: 1 },
    }
}

/// The request that asks a desk.
fn request_of(question: Question, hall: u32, desk: u8) -> Frame
    ensures request { result ≡ request_of question hall desk }
    ensures spelled { IsDesk desk → IsFrame result }
{
    match question {
        Question::Fully => status_request_in_five(hall, desk),
        Question::Standing => status_request(hall, desk),
        Question::Id => id_request(hall, desk),
    }
}

/// The number of a desk, and then those of the others.
fn tried(asked: u8) -> [u8; 5]
    requires { IsDesk asked }
    ensures order { result ≡ asked ∷ others asked }
    ensures desks { AllByRecursion IsDesk result }
{
    match asked {
        1 => [1, 2, 3, 4, 5],
        2 => [2, 1, 3, 4, 5],
        3 => [3, 1, 2, 4, 5],
        4 => [4, 1, 2, 3, 5],
        _ => [5, 1, 2, 3, 4],
    }
}

/// Whether the desk said that it is another one, or of another hall.
fn is_foreign(answer: &Result<FrameBody, BatchFault>) -> bool
    ensures yes { IsTrue result → answer.now ≡ foreign }
    ensures no { result ≡ false → answer.now ≢ foreign }
{
    match answer {
        Err(BatchFault::Asking(ClientFault::Refused { refusal })) => {
            *refusal == ClientRefusal::Foreign
        }
        _ => false,
    }
}

/// The reply of the desk of a number that answers, and does not say how it is.
fn other_reply(question: Question, desk: u8) -> StatusReply
    ensures { result ≡ other_reply question desk }
{
    match question {
        Question::Fully | Question::Standing => StatusReply::NoAnswer,
        Question::Id => StatusReply::Earlier { desk },
    }
}

/// What came of asking the desk of a number. None: memory ran out.
fn reply_to(
    question: Question,
    desk: u8,
    answer: Result<FrameBody, BatchFault>,
) -> Option<StatusReply>
    ensures { result ≡ reply_to question desk answer }
{
    match answer {
        Ok(FrameBody::Standing { standing }) => Some(StatusReply::Stands { desk, standing }),
        Ok(_) => Some(other_reply(question, desk)),
        Err(BatchFault::CannotConnect) => Some(StatusReply::CannotConnect),
        Err(BatchFault::Late) => Some(StatusReply::Late),
        Err(BatchFault::NoKey) => Some(StatusReply::NoKey),
        Err(BatchFault::OtherKey) => Some(StatusReply::OtherKey),
        Err(BatchFault::HasKey) => Some(StatusReply::HasKey),
        Err(BatchFault::Asking(ClientFault::Refused { refusal })) => {
            Some(StatusReply::Refused { refusal })
        }
        Err(BatchFault::NoMemory) => None,
        Err(_) => Some(StatusReply::NoAnswer),
    }
}

/// Asks at a place for the desks of these numbers, until one does not refuse as foreign.
fn ask_each<D: Dial>(
    dial: &mut D,
    question: Question,
    hall: u32,
    contact: Contact<'_>,
    desks: &[u8],
) -> Option<StatusReply>
    requires { AllByRecursion IsDesk desks.now }
    ensures { Tries (place_of contact.entry) question hall desks.now
        (D.dialed dial.old) (D.dialed dial.new) result }
{
    let [desk, rest @ ..] = desks else {
        return Some(StatusReply::Refused {
            refusal: ClientRefusal::Foreign,
        });
    };
    let request = request_of(question, hall, *desk);
    let answer = ask_over(dial, contact, &request);
    if is_foreign(&answer) {
        return ask_each(dial, question, hall, contact, rest);
    }
    reply_to(question, *desk, answer)
}

/// Whether there was no answer.
fn is_unanswered(first: &Option<StatusReply>) -> bool
    ensures yes { IsTrue result → first.now ≡ Some reply.NoAnswer }
    ensures no { result ≡ false → first.now ≢ Some reply.NoAnswer }
{
    matches!(first, Some(StatusReply::NoAnswer))
}

/// Asks at a place how the desk of a number is, and, where it is another one, for the others, in
/// version 3 of the wire. Where there is no answer, each desk is asked once more, as one of a
/// program before that. None: memory ran out.
fn ask_earlier<D: Dial>(
    dial: &mut D,
    hall: u32,
    contact: Contact<'_>,
    desk: u8,
) -> Option<StatusReply>
    requires { IsDesk desk }
    ensures { IsPolledBy (place_of contact.entry) asking.Standing (asking.Id ∷ []) hall desk
        (D.dialed dial.old) (D.dialed dial.new) result }
{
    let desks = tried(desk);
    let first = ask_each(dial, Question::Standing, hall, contact, &desks);
    if is_unanswered(&first) {
        return ask_each(dial, Question::Id, hall, contact, &desks);
    }
    first
}

/// The same, in version 5 first.
fn ask_at<D: Dial>(dial: &mut D, hall: u32, contact: Contact<'_>, desk: u8) -> Option<StatusReply>
    requires { IsDesk desk }
    ensures { IsPolled (place_of contact.entry) hall desk
        (D.dialed dial.old) (D.dialed dial.new) result }
{
    let desks = tried(desk);
    let first = ask_each(dial, Question::Fully, hall, contact, &desks);
    if is_unanswered(&first) {
        return ask_earlier(dial, hall, contact, desk);
    }
    first
}

/// Asks at an address for the desk of a number.
fn ask_for<'a, D: Dial>(
    dial: &mut D,
    inquiry: Inquiry<'_>,
    desk: u8,
    address: &'a str,
) -> Result<PolledDesk<'a>, AllocError>
    requires { IsDesk desk }
    ensures { IfOk result (λ polled. AsksFor inquiry.entry desk polled address.now
        (D.dialed dial.old) (D.dialed dial.new)) }
{
    let contact = Contact {
        address,
        patience: inquiry.patience,
        key: inquiry.key,
    };
    match ask_at(dial, inquiry.hall, contact, desk) {
        Some(reply) => Ok(PolledDesk {
            asked: desk,
            address,
            reply,
            other: None,
        }),
        None => Err(AllocError),
    }
}

/// Asks the desks at these addresses, the first as the desk of this number, and each further one
/// as the next.
fn ask_all<'a, D: Dial>(
    dial: &mut D,
    inquiry: Inquiry<'_>,
    desk: u8,
    addresses: &[&'a str],
    polled: &mut Vec<PolledDesk<'a>>,
) -> Result<(), AllocError>
    requires from { 1 ≤ desk }
    requires few { desk + length addresses.now ≤ 6 }
    ensures { OnOk result (PollsMore inquiry.entry desk addresses.now
        polled.old.items polled.new.items (D.dialed dial.old) (D.dialed dial.new)) }
{
    let [address, rest @ ..] = addresses else {
        return Ok(());
    };
    let one = ask_for(dial, inquiry, desk, address)?;
    polled.push(one)?;
    ask_all(dial, inquiry, desk + 1, rest, polled)
}

/// Asks all desks of an inquiry, the first address for desk 1, and compares their logs.
fn polled_of<'a, D: Dial>(
    alloc: Global,
    dial: &mut D,
    inquiry: Inquiry<'a>,
) -> Result<Vec<PolledDesk<'a>>, AllocError>
    requires { length inquiry.addresses.now ≤ 5 }
    ensures all { IfOk result (λ polled. PollsAll inquiry.entry polled.items
        (D.dialed dial.old) (D.dialed dial.new)) }
    ensures few { IfOk result (λ polled. length polled.items ≤ 5) }
{
    let mut polled = Vec::new(alloc);
    ask_all(dial, inquiry, 1, inquiry.addresses, &mut polled)?;
    let compared = compare(alloc, dial, inquiry, &polled)?;
    Ok(compared)
}

/// Asks the desks of a hall how they are, one after the other, and prints what each answered and
/// what that means, in this form: [`report`]. Returns the exit status that [`status_of`] says.
///
/// A desk that refuses as foreign is asked for under the other numbers, too: it may be another one
/// of the hall. One that ends the connection without an answer is asked in version 3 of the wire,
/// and then what became of id 1, which the programs before that answer: so one of these is
/// recognised. At last the desks that said so are asked for the last entries that all have, at most
/// 400, and each that has another one is reported.
///
/// # Errors
///
/// `Run` with `NoMemory` where memory runs out: nothing is printed. `Run` with `Write` where a
/// write fails.
pub fn print_standings<D: Dial, W: Write>(
    alloc: Global,
    dial: &mut D,
    inquiry: Inquiry<'_>,
    form: Form,
    writer: &mut W,
) -> Result<u8, DeskFault>
    requires { length inquiry.addresses.now ≤ 5 }
    ensures ok { IfOk result (λ status. Reports form inquiry.entry status
        (outside D.dialed W.contents dial.old dial.new writer.old writer.new)) }
    ensures err { IfErr result (λ f. FailsReport f form inquiry.entry
        (outside D.dialed W.contents dial.old dial.new writer.old writer.new)) }
{
    let Ok(polled) = polled_of(alloc, dial, inquiry) else {
        return Err(DeskFault::Run(RunFault::NoMemory));
    };
    let Ok(text) = report(alloc, form, inquiry.hall, &polled) else {
        return Err(DeskFault::Run(RunFault::NoMemory));
    };
    let status = status_of(&polled);
    match write_text(writer, &text) {
        Ok(()) => Ok(status),
        Err(_) => Err(DeskFault::Run(RunFault::Write)),
    }
}

/// As [`print_standings`], again and again, with a second's rest after each, until the process is
/// ended, or 2^64 - 1 times.
///
/// # Errors
///
/// Those of [`print_standings`]: the reports before it are written whole.
pub fn watch_standings<D: Dial, W: Write>(
    rt: &HostRuntime,
    dial: &mut D,
    inquiry: Inquiry<'_>,
    form: Form,
    writer: &mut W,
) -> Result<(), DeskFault>
    requires { length inquiry.addresses.now ≤ 5 }
    ensures ok { OnOk result (HasWatched form inquiry.entry
        (outside D.dialed W.contents dial.old dial.new writer.old writer.new)) }
    ensures err { IfErr result (λ f. FailsWatch f form inquiry.entry
        (outside D.dialed W.contents dial.old dial.new writer.old writer.new)) }
{
    for _report in 0..u64::MAX {
        let _status = match print_standings(rt.alloc(), dial, inquiry, form, writer) {
            Ok(status) => status,
            Err(fault) => return Err(fault),
        };
        thread::sleep(rt, Duration::from_secs(1));
    }
    Ok(())
}
