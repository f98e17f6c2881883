//! The items, and their lines on the way to the journal.

ghost use Rattle.std.specs.Prelude.{◌≡◌, IfOk, OnErr, OnOk, length};
ghost use Rattle.std.specs.List.{list_all};
ghost use Rattle.outbox.specs.Items.{is_line, is_no_end, known_as};

use crate::item::{Item, QueueOutcome};
use crate::journal_lines::{JournalLine, line_of, line_of_answer};
use acceptor::NoMemory;
use acceptor::entry::Entry;
use indexmap::{IndexMap, IndexSet};
use std::alloc::Global;
use std::marker::Model;

/// The most items that are known: as many as a log has entries.
const MOST_ITEMS: usize = 65_536;

/// The items in the order in which they were taken, and their lines on the way to the journal.
///
/// At most 65,536 are known. A contract sees what `ItemsOf` says.
#[derive(Drop)]
pub(crate) struct Items {
    alloc: Global,
    items: IndexMap<u64, Item>,
    /// How many of the first items are in the journal.
    kept: usize,
    /// The lines that are to be put into the journal.
    lines: Vec<u8>,
    /// The ids of the items that a scoretaker has answered.
    answered: IndexSet<u64>,
}

impl Model for Items {
    ghost use Rattle.outbox.specs.Items.{IsInBounds, ItemsOf, items_of};

    ghost Value = { ItemsOf };

    ghost view = { λ q. items_of q.items.entries q.kept q.lines.items q.answered.keys };

    ghost invariant = { λ q. IsInBounds (items_of q.items.entries q.kept q.lines.items
        q.answered.keys) };
}

/// Whether a byte is no end of a line.
fn is_no_end(byte: u8) -> bool
    ensures { result ≡ is_no_end byte }
{
    byte != b'\n'
}

/// Whether a text can be on a line.
pub(crate) fn is_line(text: &[u8]) -> bool
    ensures { result ≡ is_line text.now }
{
    text.iter().all(|byte| is_no_end(*byte))
}

/// What an entry is whose id is that of an item.
pub(crate) fn known_as(item: &Item, entry: &Entry) -> QueueOutcome
    ensures { result ≡ known_as item.now entry.now }
{
    if item.entry.text() == entry.text() {
        QueueOutcome::Same
    } else {
        QueueOutcome::Other
    }
}

impl Items {
    ghost use Rattle.std.specs.Prelude.{◌<◌, ◌≤◌, IfSome, length, slice_get, Some, false, true};
    ghost use Rattle.std.specs.Prelude.{None};
    ghost use Rattle.std.specs.Option.{option_copied, option_map};
    ghost use Rattle.outbox.specs.Items.{all_kept, is_answered, is_full, item_in, no_items};
    ghost use Rattle.outbox.specs.Items.{queued, taken_back, with_answer};
    ghost use Rattle.outbox.specs.Journals.{FollowsIf};
    ghost use Rattle.std.specs.Prelude.{ℕ};

    /// No item.
    pub(crate) fn new(alloc: Global) -> Items
        ensures { result ≡ no_items }
    {
        Items {
            alloc,
            items: IndexMap::new(alloc),
            kept: 0,
            lines: Vec::new(alloc),
            answered: IndexSet::new(alloc),
        }
    }

    /// The item of an id, if one is known.
    pub(crate) fn find(&self, id: u64) -> Option<&Item>
        ensures { option_copied result ≡ item_in self.now id }
    {
        self.items.get(&id)
    }

    /// The item at a place, in the order in which they were taken, with its id.
    pub(crate) fn at(&self, place: usize) -> Option<(&u64, &Item)>
        ensures { option_map (λ p. (p.0.now, p.1.now)) result
            ≡ slice_get self.now.items place }
    {
        self.items.get_index(place)
    }

    /// How many items are known, at most 65,536.
    pub(crate) fn len(&self) -> usize
        ensures len { result ≡ length self.now.items }
        ensures most { result ≤ 65536 }
    {
        self.items.len()
    }

    /// How many of the first items are in the journal.
    pub(crate) fn kept(&self) -> usize
        ensures kept { result ≡ self.now.kept }
        ensures most { result ≤ length self.now.items }
    {
        self.kept
    }

    /// Whether a scoretaker has answered the item of an id.
    pub(crate) fn is_answered(&self, id: u64) -> bool
        ensures { result ≡ is_answered self.now id }
    {
        self.answered.contains(&id)
    }

    /// Whether there is no room for one more item.
    pub(crate) fn is_full(&self) -> bool
        ensures { result ≡ is_full self.now }
    {
        self.items.len() >= MOST_ITEMS
    }

    /// Queues an entry whose id is not known.
    pub(crate) fn queue(&mut self, entry: Entry, now: u64) -> Result<(), NoMemory>
        requires new { item_in self.old entry.id ≡ None }
        requires room { is_full self.old ≡ false }
        ensures ok { OnOk result (self.new ≡ queued self.old entry now) }
        ensures err { OnErr result (self.new ≡ self.old) }
    {
        let line = line_of(self.alloc, &entry)?;
        self.lines.reserve(line.len())?;
        let id = entry.id();
        let _old = self.items.insert(id, Item { entry, since: now })?;
        let _put = self.lines.extend_from_slice(&line);
        Ok(())
    }

    /// The lines that are to be put into the journal.
    pub(crate) fn lines(&self) -> &[u8]
        ensures { result.now ≡ self.now.lines }
    {
        &self.lines
    }

    /// Says that all lines are in the journal.
    pub(crate) fn keep(&mut self)
        ensures kept { self.new ≡ all_kept self.old }
        ensures more { self.old.kept ≤ self.new.kept }
    {
        self.kept = self.items.len();
        self.lines.clear();
    }

    /// Takes back all that was taken since the journal was written last.
    pub(crate) fn take_back(&mut self)
        ensures back { self.new ≡ taken_back self.old }
        ensures all { self.new.kept ≡ length self.new.items }
    {
        self.items.truncate(self.kept);
        self.lines.clear();
    }

    /// Notes that a scoretaker has answered the item of an id.
    pub(crate) fn answer(&mut self, id: u64) -> Result<(), NoMemory>
        ensures ok { OnOk result (self.new ≡ with_answer self.old id) }
        ensures err { OnErr result (self.new ≡ self.old) }
    {
        let line = line_of_answer(self.alloc, id)?;
        self.lines.reserve(line.len())?;
        let _new = self.answered.insert(id)?;
        let _put = self.lines.extend_from_slice(&line);
        Ok(())
    }

    /// Puts an item that is in the journal after the others. Whether its id is new, and there is
    /// room.
    pub(crate) fn restore(&mut self, entry: Entry, now: u64) -> Result<bool, NoMemory>
        ensures { IfOk result (λ fits. FollowsIf self.old now (Some (JournalLine.Item entry)) fits
            self.new) }
    {
        if self.find(entry.id()).is_some() || self.is_full() {
            return Ok(false);
        }
        let id = entry.id();
        let _old = self.items.insert(id, Item { entry, since: now })?;
        self.kept += 1;
        Ok(true)
    }

    /// Notes that the journal says that an item was answered. Whether it is known.
    pub(crate) fn restore_answer(&mut self, id: u64) -> Result<bool, NoMemory>
        ensures { IfOk result (λ fits. (now : ℕ)
            → FollowsIf self.old now (Some (JournalLine.Answered id)) fits self.new) }
    {
        if self.find(id).is_none() {
            return Ok(false);
        }
        let _new = self.answered.insert(id)?;
        Ok(true)
    }
}
