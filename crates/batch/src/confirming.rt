//! Whether the entry that a desk has decided is the command that was entered.

ghost use Rattle.std.specs.Prelude.{◌≡◌, ◌≢◌, ◌⊎◌, ◌≤◌, ℕ, IfErr, IfNone, IfSome, IsTrue, OnOk};
ghost use Rattle.std.specs.Prelude.{false};
ghost use Rattle.wire.specs.Ranges.{IsDesk};
ghost use Rattle.batch.specs.Asking.{IsAnswer, IsDecided, IsOfAsking, ask_of};
ghost use Rattle.batch.specs.Confirming.{Confirms, HasFirst, IsAnother, IsDecidedAt, IsUnconfirmed};
ghost use Rattle.batch.specs.{Confirming.entry_of, declared.asking.Receiver.Receiver as Desk};
ghost use Rattle.batch.specs.model.Keeping.{AsksIn};

use crate::asking::Receiver;
use crate::dialing::{Contact, Dial};
use crate::fault::BatchFault;
use crate::keeping::ask;
use crate::watching::Watch;
use acceptor::entry::Entry;
use client::{ClientFault, log_request};
use wire::{CommandState, FrameBody};

/// The position at which a command is reported to be.
fn position_of(told: &FrameBody) -> u32
    requires { IsDecided told.now }
    ensures at { IsDecidedAt result told.now }
    ensures short { (r : Desk) → (id : ℕ) → IsAnswer (ask_of r id) told.now → result ≤ 65535 }
{
    match told {
        FrameBody::Told {
            state: CommandState::Done { pos, .. },
            ..
        } => *pos,
        _ => 0,
    }
}

/// The first of the entries of an answer.
fn first_of(answer: &FrameBody) -> Option<&Entry>
    ensures some { IfSome result (λ entry. HasFirst answer.now entry.now) }
    ensures none { IfNone result ((entry : _) → ¬ HasFirst answer.now entry) }
{
    match answer {
        FrameBody::Entries { entries, .. } => entries.as_slice().first(),
        _ => None,
    }
}

/// Whether an entry has this id and this text.
fn is_this(entry: &Entry, id: u64, text: &[u8]) -> bool
    ensures yes { IsTrue result → entry.now ≡ entry_of id text.now }
    ensures no { result ≡ false → entry.now ≢ entry_of id text.now }
{
    entry.id() == id && entry.text() == text
}

/// Asks for the entry at the position at which a command is reported to be, and sees that it has
/// this id and this text.
///
/// # Errors
///
/// Those of [`ask_over`](crate::ask_over). `AnotherCommand` where the entry is another one, of
/// which the observer hears; `Asking` with `NoAnswer` where the answer has no entry.
pub(crate) fn confirm<D: Dial, V: Watch>(
    dial: &mut D,
    made: &mut u32,
    contact: Contact<'_>,
    receiver: Receiver,
    watch: &mut V,
    id: u64,
    text: &[u8],
    told: &FrameBody,
) -> Result<(), BatchFault>
    requires desk { IsDesk receiver.desk }
    requires answer { IsAnswer (ask_of receiver id) told.now }
    requires decided { IsDecided told.now }
    ensures ok { OnOk result (AsksIn D.dialed V.heard contact.entry
        dial.old dial.new made.old made.new watch.old watch.new
        (Confirms receiver id text.now told.now)) }
    ensures err { IfErr result (λ f. AsksIn D.dialed V.heard contact.entry
        dial.old dial.new made.old made.new watch.old watch.new
        (IsUnconfirmed f receiver id text.now told.now)) }
    ensures cause { IfErr result (λ f. IsOfAsking f ⊎ IsAnother f receiver id text.now told.now) }
{
    let position = position_of(told);
    let request = log_request(receiver.hall, receiver.desk, position);
    let answer = ask(dial, made, contact, &request)?;
    let Some(entry) = first_of(&answer) else {
        return Err(BatchFault::Asking(ClientFault::NoAnswer));
    };
    if is_this(entry, id, text) {
        return Ok(());
    }
    watch.finds_another(entry);
    Err(BatchFault::AnotherCommand)
}
