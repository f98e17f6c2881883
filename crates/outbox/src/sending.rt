//! The items on their way to a desk.

ghost use Rattle.std.specs.Prelude.{◌≡◌, ◌+◌, ◌<◌, ◌≤◌, IfSome, slice_get};
ghost use Rattle.std.specs.List.{prefix_len};
ghost use Rattle.desk_talks.specs.KeptConnections.{unsent_by};
ghost use Rattle.outbox.specs.Outboxes.{Asks, AsksIf, Follows, IsEntryAt, OpensIf, aimed, gone_on};
ghost use Rattle.outbox.specs.Outboxes.{is_decided, is_decided_at, is_left, is_of};
ghost use Rattle.outbox.specs.Outboxes.{is_waiting, kept_from, lost, oldest, skipped};
ghost use Rattle.outbox.specs.Outboxes.{submit_request, took, wait_of};
ghost use Rattle.wire.specs.Ranges.{IsDesk, IsFrame};

use crate::items::Items;
use crate::outbox::Outbox;
use acceptor::entry::Entry;
use desk_talks::{
    AnswerOutcome, ConnectionPhase, ConnectionStage, Dialogue, DialogueAction, DueAction,
    ReceiveOutcome,
};
use indexmap::IndexSet;
use wire::{ClientRefusal, Frame, FrameBody, Version};

/// How long nothing is to be done where nothing is left, in milliseconds.
const IDLE: u64 = 2000;

/// The request that submits an entry at a desk, 1 to 5: a Submit of a client, which is 0, in
/// version 1 of the wire.
fn submit_request(hall: u32, desk: u8, entry: Entry) -> Frame
    requires { IsDesk desk }
    ensures request { result ≡ submit_request hall desk entry }
    ensures spelled { IsFrame result }
{
    // The contracts of these two calls say that they are in their ranges.
    let _id = entry.id();
    let _text = entry.text();
    Frame {
        version: Version::One,
        hall,
        from: 0,
        to: desk,
        what: FrameBody::Submit { entry },
    }
}

/// Whether the desk is waited for.
fn is_waiting(stage: ConnectionStage) -> bool
    ensures { result ≡ is_waiting stage }
{
    matches!(
        stage,
        ConnectionStage::Opening { .. } | ConnectionStage::Asked { .. }
    )
}

/// Whether there is an item at a place, which need not be submitted.
fn is_decided_at(items: &Items, decided: &IndexSet<u64>, place: usize) -> bool
    ensures { result ≡ is_decided_at items.now decided.now.keys (slice_get items.now.items place) }
{
    match items.at(place) {
        Some((id, _)) => decided.contains(id) || items.is_answered(*id),
        None => false,
    }
}

/// The place of the first item from `next` on that is in the journal and needs to be submitted; the
/// number of those in the journal where there is none.
fn needed_from(items: &Items, decided: &IndexSet<u64>, next: usize) -> usize
    requires { next ≤ items.now.kept }
    ensures place { result ≡ next
        + prefix_len (is_decided items.now decided.now.keys) (kept_from items.now next) }
    ensures most { result ≤ items.now.kept }
{
    for place in next..items.kept() {
        if !is_decided_at(items, decided, place) {
            return place;
        }
    }
    items.kept()
}

/// A copy of the entry of the item at a place. None: there is no item, or memory is refused.
fn entry_at(items: &Items, place: usize) -> Option<Entry>
    ensures { IfSome result (IsEntryAt (slice_get items.now.items place)) }
{
    match items.at(place) {
        Some((_, item)) => item.entry.copy().ok(),
        None => None,
    }
}

/// Whether the item at a place is the one with this id.
fn is_of(items: &Items, place: usize, id: u64) -> bool
    ensures { result ≡ is_of (slice_get items.now.items place) id }
{
    match items.at(place) {
        Some((other, _)) => *other == id,
        None => false,
    }
}

impl Outbox {
    /// Submits at the desk with this number, 1 to 5, from now on: where it is another one, the
    /// connection is to be closed, and all items that wait are submitted there.
    pub fn aim(&mut self, desk: u8)
        requires { IsDesk desk }
        ensures { self.new ≡ aimed self.old desk }
    {
        self.aim = desk;
    }

    /// The number of the desk that the connection is to, 1 to 5.
    pub fn desk(&self) -> u8
        ensures desk { result ≡ self.now.desk }
        ensures in_range { IsDesk result }
    {
        self.desk
    }

    /// The place of the item that the desk is to accept next. Since the connection to this desk was
    /// opened, the desk has accepted all items before it that needed to be submitted.
    pub fn next(&self) -> usize
        ensures next { result ≡ self.now.next }
        ensures most { result ≤ self.now.list.kept }
    {
        self.next
    }

    /// The place of the first item that is in the journal and that waits: the log, as far as it was
    /// looked through, has no entry of its id. The number of those in the journal where there is
    /// none. Where it waits for long, another desk is to be aimed at: the one that took it may have
    /// lost it.
    pub fn oldest(&self) -> usize
        ensures oldest { result ≡ oldest self.now }
        ensures most { result ≤ self.now.list.kept }
    {
        needed_from(&self.items, &self.decided, 0)
    }

    /// Why the desk refused the next item when it was submitted last, if it did.
    pub fn refusal(&self) -> Option<ClientRefusal>
        ensures { result ≡ self.now.refusal }
    {
        self.refusal
    }

    /// Whether items are left that the desk is to take.
    pub fn is_left(&self) -> bool
        ensures { result ≡ is_left self.now }
    {
        self.next < self.items.kept()
    }

    /// In how many milliseconds something is to be done, if nothing comes: 0 where something is to
    /// be done already, and 2,000 where nothing is left.
    pub fn wait(&self, now: u64) -> u64
        ensures { result ≡ wait_of self.now now }
    {
        if self.aim != self.desk {
            0
        } else if self.is_left() || is_waiting(self.line.stage()) {
            self.line.wait(now)
        } else {
            IDLE
        }
    }

    /// Leaves the desk for the one that is aimed at, which has accepted no item yet.
    fn go_on(&mut self)
        ensures { self.new ≡ gone_on self.old }
    {
        self.line.close();
        self.desk = self.aim;
        self.next = 0;
        self.refusal = None;
    }

    /// Passes over the items that need not be submitted.
    fn skip(&mut self)
        ensures { self.new ≡ skipped self.old }
    {
        let next = needed_from(&self.items, &self.decided, self.next);
        if next != self.next {
            self.next = next;
            self.refusal = None;
        }
    }

    /// Opens a connection, where an item is left that needs it.
    fn open_for_next(&mut self, now: u64) -> DialogueAction
        ensures { OpensIf (is_left (skipped self.old)) result now (skipped self.old) self.new }
    {
        self.skip();
        if !self.is_left() {
            return DialogueAction::Rest;
        }
        self.line.open(now);
        DialogueAction::Open { desk: self.desk }
    }

    /// Submits the next item, where one is left that needs it.
    fn ask_for_next(&mut self, now: u64) -> DialogueAction
        ensures { AsksIf (is_left (skipped self.old)) result now (skipped self.old) self.new }
    {
        self.skip();
        if !self.is_left() {
            return DialogueAction::Rest;
        }
        self.ask(now)
    }

    /// Submits the next item.
    fn ask(&mut self, now: u64) -> DialogueAction
        requires { self.old.next < self.old.list.kept }
        ensures { Asks result now self.old self.new }
    {
        if let Some(entry) = entry_at(&self.items, self.next) {
            let request = submit_request(self.hall, self.desk, entry);
            if self.line.ask(now, request) {
                return DialogueAction::Write;
            }
        }
        self.lost(false);
        DialogueAction::Close
    }

    /// Does what follows of what the desk's bytes came to.
    fn follow(&mut self, heard: AnswerOutcome) -> ReceiveOutcome
        ensures { Follows heard result self.old self.new }
    {
        match heard {
            AnswerOutcome::Waits => ReceiveOutcome::Nothing,
            AnswerOutcome::Answer(FrameBody::Taken { id }) => {
                self.took(id);
                ReceiveOutcome::Answer { changed: false }
            }
            AnswerOutcome::Refused(refusal) => {
                self.refusal = Some(refusal);
                ReceiveOutcome::Answer { changed: false }
            }
            _ => {
                self.lost(false);
                ReceiveOutcome::NoAnswer
            }
        }
    }

    /// Moves on to the item after the one with this id, if that is the next one.
    fn took(&mut self, id: u64)
        ensures { self.new ≡ took self.old id }
    {
        if self.next < self.items.kept() && is_of(&self.items, self.next, id) {
            self.next += 1;
        }
        self.refusal = None;
        self.line.hurry();
    }
}

impl Dialogue for Outbox {
    ghost use Rattle.std.specs.Prelude.{◌≡◌};
    ghost use Rattle.desk_talks.specs.KeptConnections.{phase_of};
    ghost use Rattle.outbox.specs.Items.{ItemsOf};
    ghost use Rattle.outbox.specs.Outboxes.{DialogueLeads, held};

    ghost Held = { ItemsOf };

    // The items, whichever of them were taken.
    ghost held = { held };

    ghost leads = { DialogueLeads };

    ghost phase = { λ o. phase_of o.line.stage };

    ghost output = { λ o. unsent_by o.line.talking };

    fn act(&mut self, now: u64) -> DialogueAction {
        if self.aim != self.desk {
            self.go_on();
            return DialogueAction::Close;
        }
        match self.line.due(now) {
            DueAction::Close | DueAction::Renew => {
                self.lost(false);
                DialogueAction::Close
            }
            DueAction::Open => self.open_for_next(now),
            DueAction::Ask => self.ask_for_next(now),
            DueAction::Rest => DialogueAction::Rest,
        }
    }

    fn phase(&self) -> ConnectionPhase {
        self.line.phase()
    }

    fn opened(&mut self) -> bool {
        self.line.opened()
    }

    fn lost(&mut self, _ended: bool)
        ensures { self.new ≡ lost self.old }
    {
        self.line.close();
    }

    fn output(&self) -> &[u8] {
        self.line.output()
    }

    fn sent(&mut self, count: usize) {
        self.line.sent(count);
    }

    fn hear(&mut self, now: u64, piece: &[u8]) -> ReceiveOutcome {
        let _now = now;
        let heard = self.line.hear(piece);
        self.follow(heard)
    }
}
