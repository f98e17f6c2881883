//! One command entered at the desk, and waited for.

ghost use Rattle.std.specs.Prelude.{◌≡◌, ◌≢◌, ◌⊎◌, ◌∷◌, ◌+◌, [], Bool, Err, false, IfErr, IfOk};
ghost use Rattle.std.specs.Prelude.{OnOk, IsTrue};
ghost use Rattle.wire.specs.Ranges.{IsDesk, IsEntry, IsFrame, IsId};
ghost use Rattle.batch.specs.Asking.{EndsWaiting, IsAnswer, IsAwaited, IsDecided, IsOfAsking};
ghost use Rattle.batch.specs.Asking.{IsPending, IsTaken, IsTakenOf, IsTurnedOff, IsUnknown, ask_of};
ghost use Rattle.batch.specs.Asking.{asked_so, most_asked, submit_of, tick_of, ticks_in};
ghost use Rattle.batch.specs.{Dialing.AsksBy, model.Trying.AreTicks, model.Trying.IsUndecided};
ghost use Rattle.batch.specs.{Dialing.GoesBy, model.Keeping.AsksIn, model.Keeping.way_of};
ghost use Rattle.batch.specs.Entering.{EnteredBy, Hinders, IsEntered, IsUnasked, StopsAsking};
ghost use Rattle.batch.specs.{Entering.StopsTaking, declared.asking.Receiver.Receiver as Desk};
ghost use Rattle.batch.specs.Watching.{Tells, Waits, watched};
ghost use Rattle.batch.specs.declared.entering.Fate.TheVariants as fate;

use crate::asking::{Receiver, question_of, request_to};
use crate::confirming::confirm;
use crate::dialing::{Contact, Dial};
use crate::fault::BatchFault;
use crate::keeping::ask;
use crate::watching::Watch;
use acceptor::entry::{Entry, EntryFault};
use client::ClientFault;
use std::alloc::Global;
use wire::{ClientRefusal, CommandState, Frame, FrameBody};

/// How many times a desk is asked again whose queue is full.
const MOST_TRIES: u32 = 10_000;

/// After this many tries the desk is ticked that does not wait with its answers.
const TRIES_TO_TICK: u32 = 32;

/// The greatest id.
const GREATEST: u64 = 9_223_372_036_854_775_807;

/// Whether the desk is ticked after a try, counted from 0: after each one where it waited with its
/// answer, and else after every 32nd.
fn is_tick_due(waited: bool, tries: u32) -> bool
    ensures yes { IsTrue result → ticks_in waited tries + 1 ≡ ticks_in waited (tries + 1) }
    ensures no { result ≡ false → ticks_in waited tries ≡ ticks_in waited (tries + 1) }
{
    if waited {
        return true;
    }
    if tries % TRIES_TO_TICK < TRIES_TO_TICK - 1 {
        return false;
    }
    true
}

/// After a try, counted from 0, of which the observer hears, rests, unless the desk waited with its
/// answer, and gives the desk a tick where one is due.
fn rest_behind<D: Dial, V: Watch>(
    dial: &mut D,
    made: &mut u32,
    contact: Contact<'_>,
    receiver: Receiver,
    watch: &mut V,
    waited: bool,
    tries: u32,
) -> Result<(), BatchFault>
    requires { IsDesk receiver.desk }
    ensures ok { OnOk result
        (AsksBy (way_of D.dialed contact.entry dial.old dial.new made.old made.new)
        (AreTicks receiver waited tries)) }
    ensures err { IfErr result
        (λ f. GoesBy (way_of D.dialed contact.entry dial.old dial.new made.old made.new)
        (asked_so (tick_of receiver) (Err f) ∷ [])) }
    ensures fails { IfErr result IsOfAsking }
    ensures heard { Tells (watched V.heard watch.old watch.new) (Waits tries ∷ []) }
{
    watch.waits(tries);
    if !waited {
        dial.pause(tries);
    }
    if !is_tick_due(waited, tries) {
        return Ok(());
    }
    let tick = request_to(receiver, FrameBody::Tick);
    ask(dial, made, contact, &tick)?;
    Ok(())
}

/// Whether a request is to be made again, since the desk's queue was full.
fn is_busy(fault: BatchFault) -> bool
    ensures yes { IsTrue result
        → fault ≡ BatchFault.Asking (ClientFault.Refused ClientRefusal.Busy) }
    ensures no { result ≡ false
        → fault ≢ BatchFault.Asking (ClientFault.Refused ClientRefusal.Busy) }
{
    match fault {
        BatchFault::Asking(ClientFault::Refused { refusal }) => refusal == ClientRefusal::Busy,
        _ => false,
    }
}

/// Makes a request until the desk's queue has room.
fn asked_until_taken<D: Dial, V: Watch>(
    dial: &mut D,
    made: &mut u32,
    contact: Contact<'_>,
    receiver: Receiver,
    watch: &mut V,
    submit: &Frame,
) -> Result<FrameBody, BatchFault>
    requires desk { IsDesk receiver.desk }
    requires spelled { IsFrame submit.now }
    ensures answer { IfOk result (λ answer. IsAnswer submit.now answer) }
    ensures ok { IfOk result (λ answer. AsksIn D.dialed V.heard contact.entry
        dial.old dial.new made.old made.new watch.old watch.new
        (IsTakenOf receiver submit.now answer)) }
    ensures err { IfErr result (λ f. AsksIn D.dialed V.heard contact.entry
        dial.old dial.new made.old made.new watch.old watch.new
        (IsTurnedOff f receiver submit.now)) }
    ensures fails { IfErr result IsOfAsking }
{
    for tries in 0..MOST_TRIES {
        match ask(dial, made, contact, submit) {
            Ok(answer) => return Ok(answer),
            Err(fault) => {
                if !is_busy(fault) {
                    return Err(fault);
                }
            }
        }
        rest_behind(dial, made, contact, receiver, watch, false, tries)?;
    }
    ask(dial, made, contact, submit)
}

/// The entry, whose id and text are in their ranges: the contracts of the two calls say so.
fn kept(entry: Entry) -> Entry
    ensures same { result ≡ entry }
    ensures in_range { IsEntry result }
{
    let _id = entry.id();
    let _text = entry.text();
    entry
}

/// A text with its id, as an entry.
fn entry_of(alloc: Global, id: u64, text: &[u8]) -> Result<Entry, BatchFault>
    ensures made { IfOk result (λ e. e ≡ record { id = id; text = text.now }) }
    ensures in_range { IfOk result IsEntry }
    ensures err { IfErr result
        (λ f. (waits : Bool) (r : Desk) → Hinders f waits r id text.now) }
    ensures unasked { IfErr result IsUnasked }
{
    match Entry::new(alloc, id, text) {
        Ok(entry) => Ok(kept(entry)),
        Err(EntryFault::BadId) => Err(BatchFault::NoMoreIds),
        Err(EntryFault::TooLong) => Err(BatchFault::TextTooLong),
        Err(EntryFault::NoMemory) => Err(BatchFault::NoMemory),
    }
}

/// Enters a command, and gives what the desk answers.
fn submitted<D: Dial, V: Watch>(
    alloc: Global,
    dial: &mut D,
    made: &mut u32,
    contact: Contact<'_>,
    receiver: Receiver,
    watch: &mut V,
    id: u64,
    text: &[u8],
) -> Result<FrameBody, BatchFault>
    requires { IsDesk receiver.desk }
    ensures answer { IfOk result (λ answer. IsAnswer (submit_of receiver id text.now) answer) }
    ensures ok { IfOk result (λ answer. AsksIn D.dialed V.heard contact.entry
        dial.old dial.new made.old made.new watch.old watch.new
        (IsTaken receiver id text.now answer)) }
    ensures err { IfErr result (λ f. AsksIn D.dialed V.heard contact.entry
        dial.old dial.new made.old made.new watch.old watch.new
        (StopsTaking f receiver id text.now)) }
    ensures cause { IfErr result
        (λ f. IsOfAsking f ⊎ ((waits : Bool) (r : Desk) → Hinders f waits r id text.now)) }
{
    let entry = entry_of(alloc, id, text)?;
    let submit = request_to(receiver, FrameBody::Submit { entry });
    asked_until_taken(dial, made, contact, receiver, watch, &submit)
}

/// What an answer says of a command.
#[derive(Clone, Copy)]
enum Fate {
    Decided,
    Waits,
    Unknown,
}

/// What a desk's answer says of a command: that it is in the log, that the desk knows nothing of
/// it, or neither.
fn fate_of(told: &FrameBody) -> Fate
    ensures decided { result ≡ fate.Decided → IsDecided told.now }
    ensures waits { result ≡ fate.Waits → IsPending told.now }
    ensures unknown { result ≡ fate.Unknown → IsUnknown told.now }
{
    match told {
        FrameBody::Told { state, .. } => match state {
            CommandState::Pending => Fate::Waits,
            CommandState::Unknown => Fate::Unknown,
            CommandState::Done { .. } => Fate::Decided,
        },
        _ => Fate::Waits,
    }
}

/// How often a desk is asked at most what became of a command: one that waits a second with its
/// answer less often.
fn most_asked(waits: bool) -> u32
    ensures { result ≡ most_asked waits }
{
    if waits { 300 } else { 10_000 }
}

/// Asks again and again until the command with an id is decided, and gives the answer. The first
/// answer that the desk knows nothing of it ends that with `Lost`. A desk that waits with its
/// answer until the command is decided, for a second at most, is ticked then, and asked once more.
fn decided<D: Dial, V: Watch>(
    dial: &mut D,
    made: &mut u32,
    contact: Contact<'_>,
    receiver: Receiver,
    watch: &mut V,
    id: u64,
) -> Result<FrameBody, BatchFault>
    requires desk { IsDesk receiver.desk }
    requires id { IsId id }
    ensures answer { IfOk result (λ told. IsAnswer (ask_of receiver id) told × IsDecided told) }
    ensures ok { IfOk result (λ told. AsksIn D.dialed V.heard contact.entry
        dial.old dial.new made.old made.new watch.old watch.new
        (IsAwaited receiver id told)) }
    ensures err { IfErr result (λ f. AsksIn D.dialed V.heard contact.entry
        dial.old dial.new made.old made.new watch.old watch.new
        (EndsWaiting f receiver id)) }
    ensures cause { IfErr result (λ f. IsOfAsking f ⊎ IsUndecided f receiver id) }
{
    let question = question_of(receiver, id);
    let waits = receiver.awaits;
    for tries in 0..most_asked(waits) {
        let told = ask(dial, made, contact, &question)?;
        match fate_of(&told) {
            Fate::Decided => return Ok(told),
            Fate::Unknown => return Err(BatchFault::Lost),
            Fate::Waits => {}
        }
        rest_behind(dial, made, contact, receiver, watch, waits, tries)?;
    }
    Err(BatchFault::StillPending)
}

/// Enters a command, and where that is asked for waits until it is decided and sees that the entry
/// that was decided is this one. It gives the last answer that says what became of it.
pub(crate) fn entered<D: Dial, V: Watch>(
    alloc: Global,
    dial: &mut D,
    made: &mut u32,
    contact: Contact<'_>,
    receiver: Receiver,
    waits: bool,
    id: u64,
    text: &[u8],
    watch: &mut V,
) -> Result<FrameBody, BatchFault>
    requires { IsDesk receiver.desk }
    ensures answer { IfOk result (λ last. IsEntered waits receiver id text.now last) }
    ensures ok { IfOk result (λ last. AsksIn D.dialed V.heard contact.entry
        dial.old dial.new made.old made.new watch.old watch.new
        (EnteredBy waits receiver id text.now last)) }
    ensures err { IfErr result (λ f. AsksIn D.dialed V.heard contact.entry
        dial.old dial.new made.old made.new watch.old watch.new
        (StopsAsking f receiver id text.now)) }
    ensures cause { IfErr result (λ f. IsOfAsking f ⊎ Hinders f waits receiver id text.now) }
{
    if id == 0 || id > GREATEST {
        return Err(BatchFault::NoMoreIds);
    }
    let taken = submitted(alloc, dial, made, contact, receiver, watch, id, text)?;
    if !waits {
        return Ok(taken);
    }
    let told = decided(dial, made, contact, receiver, watch, id)?;
    confirm(dial, made, contact, receiver, watch, id, text, &told)?;
    Ok(told)
}
