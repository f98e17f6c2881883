//! Items on their way to the log.

ghost use Rattle.std.specs.Prelude.{◌≡◌, OnErr, OnOk, length};

use crate::item::{Item, QueueOutcome};
use crate::items::{Items, is_line, known_as};
use crate::state::{ItemState, state_of};
use acceptor::NoMemory;
use acceptor::entry::Entry;
use desk_talks::KeptConnection;
use indexmap::IndexSet;
use learner::log::Log;
use mirror::Mirror;
use std::alloc::Global;
use std::marker::Model;
use wire::ClientRefusal;

/// What was entered and is under way to the log of a hall: items, each of which is one entry that
/// never changes.
///
/// An item is taken (`take`); its line is put into the journal by the caller (`lines`, `kept`);
/// then it is submitted at the desk that is aimed at, in order, each item once the desk has taken
/// the one before, until an entry of its id is found in the log (`look`). At another desk all are
/// submitted again. What became of an item is what the log says (`state`). The caller does what the
/// outbox wants over one connection (`desk_talks::Dialogue`).
///
/// At most 65,536 items are known, each with at most 600 bytes of text, whose lines wait for the
/// journal once; and the ids of at most 65,536 entries of the log. A contract sees what `OutboxOf`
/// says.
#[derive(Drop)]
pub struct Outbox {
    pub(crate) items: Items,
    /// How many entries of the log were looked through.
    pub(crate) seen: u32,
    /// Their ids.
    pub(crate) decided: IndexSet<u64>,
    pub(crate) hall: u32,
    /// The desk that the connection is to, and the one that is aimed at.
    pub(crate) desk: u8,
    pub(crate) aim: u8,
    pub(crate) line: KeptConnection,
    /// The place of the item that the desk is to take next.
    pub(crate) next: usize,
    /// Why the desk refused it, if it did.
    pub(crate) refusal: Option<ClientRefusal>,
}

impl Model for Outbox {
    ghost use Rattle.std.specs.Prelude.{◌≤◌};
    ghost use Rattle.outbox.specs.Outboxes.{OutboxOf, outbox};
    ghost use Rattle.wire.specs.Ranges.{IsDesk};

    ghost Value = { OutboxOf };

    ghost view = { λ o. outbox o.items o.seen o.decided.keys o.hall o.desk o.aim o.line o.next
        o.refusal };

    ghost invariant = { λ o. IsDesk o.desk × IsDesk o.aim × (o.next ≤ o.items.kept)
        × (o.seen ≤ 65536) };
}

impl Outbox {
    ghost use Rattle.std.specs.Prelude.{◌<◌, ◌≤◌, IfOk, length, slice_get, take};
    ghost use Rattle.std.specs.Prelude.{ℕ};
    ghost use Rattle.std.specs.Option.{option_copied, option_map};
    ghost use Rattle.outbox.specs.Items.{ItemsOf, Takes, all_kept, is_answered, item_in};
    ghost use Rattle.outbox.specs.Items.{taken_back, with_answer};
    ghost use Rattle.outbox.specs.Outboxes.{looked, new_outbox, with_list};
    ghost use Rattle.outbox.specs.States.{state_of};
    ghost use Rattle.wire.specs.Ranges.{IsDesk};
    ghost use Rattle.outbox.specs.Outboxes.{Answers, looked_at};

    /// These items, and no connection yet, to the desk with this number, 1 to 5, of the hall with
    /// this number.
    pub(crate) fn over(alloc: Global, hall: u32, desk: u8, items: Items) -> Outbox
        requires { IsDesk desk }
        ensures { result ≡ new_outbox hall desk items }
    {
        Outbox {
            items,
            seen: 0,
            decided: IndexSet::new(alloc),
            hall,
            desk,
            aim: desk,
            line: KeptConnection::new(alloc),
            next: 0,
            refusal: None,
        }
    }

    // ---- the items

    /// Takes an entry: it is queued, unless its id is known, its text has the end of a line in it,
    /// or there is no room. At NoMemory nothing has changed.
    pub fn take(&mut self, entry: Entry, now: u64) -> Result<QueueOutcome, NoMemory>
        ensures list { IfOk result
            (λ taken. Takes self.old.list entry now taken self.new.list) }
        ensures others { self.new ≡ with_list self.old self.new.list }
        ensures err { OnErr result (self.new ≡ self.old) }
    {
        if let Some(item) = self.items.find(entry.id()) {
            return Ok(known_as(item, &entry));
        }
        if !is_line(entry.text()) {
            return Ok(QueueOutcome::Unfit);
        }
        if self.items.is_full() {
            return Ok(QueueOutcome::Full);
        }
        self.items.queue(entry, now)?;
        Ok(QueueOutcome::New)
    }

    /// The item of an id, if one is known.
    pub fn find(&self, id: u64) -> Option<&Item>
        ensures { option_copied result ≡ item_in self.now.list id }
    {
        self.items.find(id)
    }

    /// How many items are known, at most 65,536.
    pub fn len(&self) -> usize
        ensures len { result ≡ length self.now.list.items }
        ensures most { result ≤ 65536 }
    {
        self.items.len()
    }

    /// The item at a place, in the order in which they were taken, with its id.
    pub fn at(&self, place: usize) -> Option<(&u64, &Item)>
        ensures { option_map (λ p. (p.0.now, p.1.now)) result
            ≡ slice_get self.now.list.items place }
    {
        self.items.at(place)
    }

    /// What became of the item of an id, by the log that the mirror holds. None: no such item is
    /// known.
    pub fn state(&self, mirror: &Mirror, id: u64) -> Option<ItemState>
        ensures { result ≡ option_map (λ item. state_of mirror.now item.entry)
            (item_in self.now.list id) }
    {
        match self.items.find(id) {
            Some(item) => Some(state_of(mirror, &item.entry)),
            None => None,
        }
    }

    /// Whether a scoretaker has answered the item of an id.
    pub fn is_answered(&self, id: u64) -> bool
        ensures { result ≡ is_answered self.now.list id }
    {
        self.items.is_answered(id)
    }

    // ---- the journal

    /// The lines that are to be put into the journal, after all that is there.
    pub fn lines(&self) -> &[u8]
        ensures { result.now ≡ self.now.list.lines }
    {
        self.items.lines()
    }

    /// Says that these lines are in the journal, and will be after a crash. Only then are their
    /// items submitted, and only then may it be answered that they are taken.
    pub fn kept(&mut self)
        ensures { self.new ≡ with_list self.old (all_kept self.old.list) }
    {
        self.items.keep();
    }

    /// Says that these lines could not be put into the journal, and were taken out of it again.
    /// What was taken since the last ones is taken back. What was answered since then stays
    /// answered until the program ends; its line is not put there any more.
    pub fn not_kept(&mut self)
        ensures back { self.new ≡ with_list self.old (taken_back self.old.list) }
        ensures all { self.new.list.kept ≡ length self.new.list.items }
    {
        self.items.take_back();
    }

    // ---- the log

    /// Notes that a scoretaker has answered what the log says of the item of an id, for which a
    /// line is to be put into the journal. False: no such item is known, or it waits, or it was
    /// answered before; then nothing has changed. Nor has it at NoMemory.
    pub fn answer(&mut self, mirror: &Mirror, id: u64) -> Result<bool, NoMemory>
        ensures ok { IfOk result (λ told. Answers mirror.now id told self.old self.new) }
        ensures err { OnErr result (self.new ≡ self.old) }
    {
        if self.is_answered(id) {
            return Ok(false);
        }
        match self.state(mirror, id) {
            None | Some(ItemState::Waits) => Ok(false),
            Some(_) => {
                self.items.answer(id)?;
                Ok(true)
            }
        }
    }

    /// How many entries of the log were looked through.
    fn seen(&self) -> u32
        ensures seen { result ≡ self.now.seen }
        ensures most { result ≤ 65536 }
    {
        self.seen
    }

    /// Looks at the entry of the log at a position: an item of its id need not be submitted any
    /// more.
    fn look_at(&mut self, entry: &Entry, position: u32) -> Result<(), NoMemory>
        requires { position < 65536 }
        ensures ok { OnOk result (self.new ≡ looked_at self.old entry.now position) }
        ensures err { OnErr result (self.new ≡ self.old) }
    {
        let _new = self.decided.insert(entry.id())?;
        self.seen = position + 1;
        Ok(())
    }

    /// Looks through the entries of the log that were not looked through yet: an item whose id one
    /// of them has need not be submitted any more. At NoMemory the first of them were looked
    /// through, or none; the same call then continues.
    pub fn look(&mut self, log: &Log) -> Result<(), NoMemory>
        ensures ok { OnOk result (self.new ≡ looked self.old log.now.entries) }
        ensures err { OnErr result ((count : ℕ)
            × (self.new ≡ looked self.old (take count log.now.entries))) }
    {
        for position in self.seen()..log.len() {
            let Some(entry) = log.entry(position) else {
                return Ok(());
            };
            self.look_at(entry, position)?;
        }
        Ok(())
    }
}
