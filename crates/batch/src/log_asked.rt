//! The log of a desk, asked for part after part.

ghost use Rattle.std.specs.Prelude.{◌≡◌, ◌≤◌, ◌++◌, ℕ, List, IfErr, IfNone, IfOk, IfSome, OnOk};
ghost use Rattle.std.specs.Prelude.{length};
ghost use Rattle.acceptor.specs.declared.entry.Entry.{Entry};
ghost use Rattle.wire.specs.Ranges.{IsDesk};
ghost use Rattle.batch.specs.{Asking.IsAnswer, Asking.IsOfAsking, Dialing.AsksBy, Dialing.told};
ghost use Rattle.batch.specs.Logs.{AddsSo, FailsLog, IsPart, TellsLog, log_of};
ghost use Rattle.batch.specs.model.{Keeping.way_of, Parts.AddsPart, Parts.FailsPart};
ghost use Rattle.batch.specs.declared.asking.Receiver.{Receiver as Desk};

use crate::asking::Receiver;
use crate::dialing::{Contact, Dial};
use crate::fault::BatchFault;
use crate::keeping::{ask, let_go};
use acceptor::NoMemory;
use client::{ClientFault, log_request};
use learner::log::Log;
use std::alloc::Global;
use std::collections::VecDeque;
use wire::{Entries, FrameBody};

/// Puts entries at the end of a log.
fn append_all(log: &mut Log, entries: Entries) -> Result<(), NoMemory>
    ensures { OnOk result (log.new.entries ≡ log.old.entries ++ entries) }
{
    let mut entries = VecDeque::from(entries.into_vec());
    while let Some(entry) = entries.pop_front() {
        if log.reserve().is_err() {
            return Err(NoMemory);
        }
        log.append(entry);
    }
    Ok(())
}

/// The length of a log and its entries from a position on, as an answer says, where it is a part of
/// a log that was reported to have this many entries.
fn part_of(answer: FrameBody, position: u32, told: u32) -> Option<(u32, Entries)>
    requires behind { position ≤ told }
    ensures some { (r : Desk) → IsAnswer (log_of r position) answer
        → IfSome result (λ part. IsPart position told part.0 part.1 answer × (part.0 ≤ 65536)) }
    ensures none { IfNone result
        ((len : ℕ) → (entries : List Entry) → ¬ IsPart position told len entries answer) }
{
    match answer {
        FrameBody::Entries {
            length,
            entries,
            ..
        } => {
            let is_empty = entries.as_slice().is_empty();
            if length < told || (is_empty && position < length) {
                return None;
            }
            Some((length, entries))
        }
        _ => None,
    }
}

/// Asks for what is in a desk's log behind the entries that have come, and puts it behind them. The
/// length of the log that was reported before is `told`; the one that is reported now is returned.
fn ask_part<D: Dial>(
    dial: &mut D,
    made: &mut u32,
    contact: Contact<'_>,
    receiver: Receiver,
    log: &mut Log,
    told: u32,
) -> Result<u32, BatchFault>
    requires desk { IsDesk receiver.desk }
    requires behind { length log.old.entries ≤ told }
    ensures ok { IfOk result (λ len. AddsPart
        (way_of D.dialed contact.entry dial.old dial.new made.old made.new)
        receiver log.old.entries told log.new.entries len) }
    ensures err { IfErr result (λ f. FailsPart
        (way_of D.dialed contact.entry dial.old dial.new made.old made.new)
        receiver log.old.entries told f) }
    ensures fails { IfErr result IsOfAsking }
{
    let position = log.len();
    let request = log_request(receiver.hall, receiver.desk, position);
    let answer = ask(dial, made, contact, &request)?;
    let Some((length, entries)) = part_of(answer, position, told) else {
        return Err(BatchFault::Asking(ClientFault::NoAnswer));
    };
    match append_all(log, entries) {
        Ok(()) => Ok(length),
        Err(_) => Err(BatchFault::NoMemory),
    }
}

/// As [`ask_log`], with the connection that is kept, or none.
fn ask_log_over<D: Dial>(
    alloc: Global,
    dial: &mut D,
    made: &mut u32,
    contact: Contact<'_>,
    receiver: Receiver,
) -> Result<Log, BatchFault>
    requires { IsDesk receiver.desk }
    ensures ok { IfOk result
        (λ log. AsksBy (way_of D.dialed contact.entry dial.old dial.new made.old made.new)
        (TellsLog receiver log.entries)) }
    ensures err { IfErr result
        (λ f. AsksBy (way_of D.dialed contact.entry dial.old dial.new made.old made.new)
        (FailsLog f receiver)) }
    ensures fails { IfErr result IsOfAsking }
{
    let Ok(mut log) = Log::new(alloc) else {
        return Err(BatchFault::NoMemory);
    };
    let mut told = ask_part(dial, made, contact, receiver, &mut log, 0)?;
    while log.len() < told {
        told = ask_part(dial, made, contact, receiver, &mut log, told)?;
    }
    Ok(log)
}

/// Asks a desk for its log, part after part from the beginning on, until as many entries have come
/// as it has. It is the log at the moment of the last answer, where the desk's log only grows.
///
/// Requests are made over one connection, and over a new one as those of
/// [`enter_lines`](crate::enter_lines).
///
/// # Errors
///
/// Those of [`ask_over`](crate::ask_over). `Asking` with `NoAnswer` comes, too, where an answer
/// says that the log is shorter than it was reported to be, or has no entry though the log goes on.
pub fn ask_log<D: Dial>(
    alloc: Global,
    dial: &mut D,
    contact: Contact<'_>,
    receiver: Receiver,
) -> Result<Log, BatchFault>
    requires { IsDesk receiver.desk }
    ensures ok { IfOk result (λ log. AddsSo (told contact.entry D.dialed dial.old dial.new)
        (TellsLog receiver log.entries)) }
    ensures err { IfErr result (λ f. AddsSo (told contact.entry D.dialed dial.old dial.new)
        (FailsLog f receiver)) }
    ensures fails { IfErr result IsOfAsking }
{
    let mut made = 0;
    let log = ask_log_over(alloc, dial, &mut made, contact, receiver);
    let_go(dial, made);
    log
}
