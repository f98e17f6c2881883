//! A connection that is kept for as many requests as a desk answers on one. Where requests are
//! made, `made` counts those over the connection that is kept: none is kept where it is 0.

ghost use Rattle.std.specs.Prelude.{◌≡◌, ◌⊎◌, ◌<◌, ◌∷◌, [], IfErr, IfNone, IfOk, IfSome};
ghost use Rattle.wire.specs.Ranges.{IsFrame};
ghost use Rattle.batch.specs.{Asking.IsAnswer, Asking.IsOfAsking, model.Keeping.way_of};
ghost use Rattle.batch.specs.Dialing.{Adds, GoesBy, LetsGo, answer_of, asked_so, fault_of};
ghost use Rattle.batch.specs.Dialing.{is_answered, is_hung_up, made_after, place_of};
ghost use Rattle.batch.specs.model.Keeping.{Cuts, Hears, MakesAnew, MakesKept, Uses, standing};

use crate::dialing::{ConnectionLoss, Contact, Dial};
use crate::fault::BatchFault;
use client::{ClientFault, judged};
use std::io;
use std::io::ErrorKind;
use wire::{Frame, FrameBody};

/// The most requests over one connection: a desk ends it after this many frames.
const MOST_REQUESTS: u32 = 64;

/// Why nobody could be reached.
fn no_connection(error: &io::Error) -> BatchFault
    ensures { (result ≡ BatchFault.CannotConnect) ⊎ (result ≡ BatchFault.NoMemory) }
{
    if error.kind() == ErrorKind::OutOfMemory {
        return BatchFault::NoMemory;
    }
    BatchFault::CannotConnect
}

/// Why there is no answer, by the fault of the request and by the connection's end.
fn no_answer(fault: ClientFault, ending: ConnectionLoss) -> BatchFault
    ensures same { result ≡ fault_of fault ending }
    ensures cause { IsOfAsking result }
{
    match fault {
        ClientFault::NoMemory => BatchFault::NoMemory,
        ClientFault::Refused { .. } => BatchFault::Asking(fault),
        ClientFault::NoAnswer | ClientFault::Write => match ending {
            ConnectionLoss::Late => BatchFault::Late,
            ConnectionLoss::NoKey => BatchFault::NoKey,
            ConnectionLoss::OtherKey => BatchFault::OtherKey,
            ConnectionLoss::HasKey => BatchFault::HasKey,
            ConnectionLoss::Gone | ConnectionLoss::Own => BatchFault::Asking(fault),
        },
    }
}

/// What came of a request, by what was heard and by the connection's end.
fn answer_of(
    ended: Result<FrameBody, ClientFault>,
    ending: ConnectionLoss,
) -> Result<FrameBody, BatchFault>
    ensures same { result ≡ answer_of ended ending }
    ensures cause { IfErr result IsOfAsking }
{
    match ended {
        Ok(answer) => Ok(answer),
        Err(fault) => Err(no_answer(fault, ending)),
    }
}

/// Whether the desk answered, or refused.
fn is_answered(ended: &Result<FrameBody, ClientFault>) -> bool
    ensures { result ≡ is_answered ended.now }
{
    match ended {
        Ok(_) => true,
        Err(ClientFault::Refused { .. }) => true,
        Err(_) => false,
    }
}

/// Whether the desk ended the connection and did not answer.
fn is_hung_up(ended: &Result<FrameBody, ClientFault>, ending: ConnectionLoss) -> bool
    ensures { result ≡ is_hung_up ended.now ending }
{
    match ended {
        Err(ClientFault::Write) => true,
        Err(ClientFault::NoAnswer) => matches!(ending, ConnectionLoss::Gone),
        _ => false,
    }
}

/// Makes a request over the connection that is open, and judges the first frame that comes.
fn heard<D: Dial>(dial: &mut D, request: &Frame) -> Result<FrameBody, ClientFault>
    requires { IsFrame request.now }
    ensures told { Hears request.now result (D.dialed dial.old) (D.dialed dial.new) }
    ensures answered { IfOk result (IsAnswer request.now) }
{
    match dial.ask(request) {
        Ok(given) => judged(request, given),
        Err(fault) => Err(fault),
    }
}

/// Makes a request over the connection that is open, and keeps it where the desk answers or
/// refuses. Else the connection is ended.
fn exchange_over<D: Dial>(
    dial: &mut D,
    made: &mut u32,
    request: &Frame,
) -> (Result<FrameBody, ClientFault>, ConnectionLoss)
    requires spelled { IsFrame request.now }
    requires few { made.old < 64 }
    ensures used { Uses request.now result.0 result.1 (D.dialed dial.old) (D.dialed dial.new) }
    ensures made { made.new ≡ made_after result.0 made.old }
    ensures answered { IfOk result.0 (IsAnswer request.now) }
{
    let ended = heard(dial, request);
    if is_answered(&ended) {
        *made += 1;
        return (ended, ConnectionLoss::Own);
    }
    *made = 0;
    let ending = dial.hang_up();
    (ended, ending)
}

/// Makes a request over a new connection.
fn ask_anew<D: Dial>(
    dial: &mut D,
    made: &mut u32,
    contact: Contact<'_>,
    request: &Frame,
) -> Result<FrameBody, BatchFault>
    requires spelled { IsFrame request.now }
    ensures told { MakesAnew (place_of contact.entry) (D.dialed dial.old) (D.dialed dial.new)
        (asked_so request.now result) made.new }
    ensures answered { IfOk result (IsAnswer request.now) }
    ensures failed { IfErr result IsOfAsking }
{
    *made = 0;
    match dial.dial(contact) {
        Ok(()) => {}
        Err(error) => return Err(no_connection(&error)),
    }
    let (ended, ending) = exchange_over(dial, made, request);
    answer_of(ended, ending)
}

/// Makes a request over the connection that is kept. None where it is cut off.
fn ask_kept<D: Dial>(
    dial: &mut D,
    made: &mut u32,
    request: &Frame,
) -> Option<Result<FrameBody, BatchFault>>
    requires spelled { IsFrame request.now }
    requires some { 0 < made.old }
    requires few { made.old < 64 }
    ensures cut { IfNone result (Cuts request.now (D.dialed dial.old) (D.dialed dial.new)) }
    ensures told { IfSome result (λ answer. MakesKept made.old (D.dialed dial.old)
        (D.dialed dial.new) (asked_so request.now answer) made.new) }
    ensures answered { IfSome result (λ answer. IfOk answer (IsAnswer request.now)) }
    ensures failed { IfSome result (λ answer. IfErr answer IsOfAsking) }
{
    let (ended, ending) = exchange_over(dial, made, request);
    if is_hung_up(&ended, ending) {
        return None;
    }
    Some(answer_of(ended, ending))
}

/// Ends the connection that is kept, where there is one.
pub(crate) fn let_go<D: Dial>(dial: &mut D, made: u32)
    ensures { LetsGo (standing D.dialed dial.old made) (D.dialed dial.new) }
{
    if made == 0 {
        return;
    }
    let _ending = dial.hang_up();
}

/// Makes a request over the connection that is kept, or over a new one where none is, or that one
/// has had as many as a desk answers. Where the desk has ended the one that is kept, and does not
/// answer, the request is made once more, over a new one.
///
/// # Errors
///
/// As [`ask_over`].
pub(crate) fn ask<D: Dial>(
    dial: &mut D,
    made: &mut u32,
    contact: Contact<'_>,
    request: &Frame,
) -> Result<FrameBody, BatchFault>
    requires { IsFrame request.now }
    ensures told { GoesBy (way_of D.dialed contact.entry dial.old dial.new made.old made.new)
        (asked_so request.now result ∷ []) }
    ensures answered { IfOk result (IsAnswer request.now) }
    ensures failed { IfErr result IsOfAsking }
{
    if *made == 0 {
        return ask_anew(dial, made, contact, request);
    }
    if *made >= MOST_REQUESTS {
        let _ending = dial.hang_up();
        return ask_anew(dial, made, contact, request);
    }
    match ask_kept(dial, made, request) {
        Some(answer) => answer,
        None => ask_anew(dial, made, contact, request),
    }
}

/// Makes one request over a connection of its own: opens it, writes the request, reads the answer,
/// and ends it.
///
/// # Errors
///
/// - `CannotConnect` where no connection could be opened: nothing is asked.
/// - `Asking` where the desk refuses, the request cannot be written, or there is no answer.
/// - `Late` where there is no answer, and the desk was waited for as long as the contact says.
/// - `NoKey`, `OtherKey` and `HasKey` where there is no answer, since the desk speaks without a
///   key, under another one, or only under one: nothing was done.
/// - `NoMemory` where memory runs out.
pub fn ask_over<D: Dial>(
    dial: &mut D,
    contact: Contact<'_>,
    request: &Frame,
) -> Result<FrameBody, BatchFault>
    requires { IsFrame request.now }
    ensures told { Adds (place_of contact.entry) (D.dialed dial.old) (D.dialed dial.new)
        (asked_so request.now result ∷ []) }
    ensures answered { IfOk result (IsAnswer request.now) }
    ensures failed { IfErr result IsOfAsking }
{
    let mut made = 0;
    let answer = ask(dial, &mut made, contact, request);
    let_go(dial, made);
    answer
}
