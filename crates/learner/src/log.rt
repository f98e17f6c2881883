//! A desk's log.

ghost use Rattle.std.specs.Prelude.{◌≡◌};

use acceptor::entry::Entry;
use acceptor::{MOST_ENTRIES, NoMemory};
use std::alloc::{AllocError, Global};
use std::collections::HashMap;
use std::marker::Model;

/// The entries that a new log has memory for.
const FIRST_CAPACITY: usize = 16;

/// Why a log makes no room for an entry. It is then as it was.
#[derive(Clone, Copy, PartialEq, Eq, Debug)]
pub enum ReserveFault {
    /// The log has 65,536 entries.
    LogFull,
    /// Memory was wanted and refused.
    NoMemory,
}

impl From<AllocError> for ReserveFault {
    ghost use Rattle.learner.specs.declared.log.ReserveFault.TheVariants.{NoMemory};

    ghost from_gives = { λ _ e. e ≡ NoMemory };

    fn from(_: AllocError) -> Self {
        ReserveFault::NoMemory
    }
}

/// The entries that a desk knows to be decided, by position, and the room that was reserved for the
/// next one (0 or 1).
#[derive(Drop)]
pub struct Log {
    entries: Vec<Entry>,
    first: HashMap<u64, u32>,
    room: u32,
}

impl Model for Log {
    ghost use Rattle.learner.specs.Logs.{LogValue};
    ghost use Rattle.learner.specs.model.Indexes.{IsIndexed};

    ghost Value = { LogValue };

    ghost view = { λ l. record { entries = l.entries.items; room = l.room } };

    ghost invariant = { λ l. IsIndexed l.entries l.first l.room };
}

impl Log {
    ghost use Rattle.std.specs.Prelude.{◌<◌, ◌≤◌, ◌↔◌, [], IsTrue, IsOk, IfOk, OnOk, OnErr};
    ghost use Rattle.std.specs.Prelude.{length, slice_get, option_map};
    ghost use Rattle.learner.specs.Logs.{empty_log, appended, reserved, position_of};

    /// The log with no entry, and with no room reserved. It takes its first memory here; where that
    /// is refused, the answer is NoMemory.
    pub fn new(alloc: Global) -> Result<Log, NoMemory>
        ensures { IfOk result (λ log. log ≡ empty_log) }
    {
        Ok(Log {
            entries: Vec::with_capacity(alloc, FIRST_CAPACITY)?,
            first: HashMap::with_capacity(alloc, FIRST_CAPACITY)?,
            room: 0,
        })
    }

    /// Makes room for one more entry, where there is none. With room there already, it takes no
    /// memory.
    ///
    /// With 65,536 entries the log is LogFull. Else, where memory is refused, the answer is
    /// NoMemory. Either leaves the log as it was.
    pub fn reserve(&mut self) -> Result<(), ReserveFault>
        ensures ok { OnOk result (self.new ≡ reserved self.old) }
        ensures room { 0 < self.old.room → IsOk result }
        ensures full { (result ≡ Err ReserveFault.LogFull)
            ↔ (length self.old.entries ≡ MOST_ENTRIES) }
        ensures err { OnErr result (self.new ≡ self.old) }
    {
        if self.entries.len() == MOST_ENTRIES as usize {
            return Err(ReserveFault::LogFull);
        }
        self.first.reserve(1)?;
        self.entries.reserve(1)?;
        self.room = 1;
        Ok(())
    }

    /// Puts the entry at the end, in the room that was reserved. It takes no memory.
    pub fn append(&mut self, entry: Entry)
        requires { 0 < self.old.room }
        ensures { self.new ≡ appended self.old entry }
    {
        let pos = self.len();
        let id = entry.id();
        // Both have room, so neither answer is a fault.
        if !self.first.contains_key(&id) {
            let _ = self.first.insert(id, pos);
        }
        let _ = self.entries.push(entry);
        self.room -= 1;
    }

    /// The entry at the position, where there is one.
    pub fn entry(&self, pos: u32) -> Option<&Entry>
        ensures { option_map (λ e. e.now) result ≡ slice_get self.now.entries pos }
    {
        self.entries.get(pos as usize)
    }

    /// The number of entries, at most 65,536.
    pub fn len(&self) -> u32
        ensures len { result ≡ length self.now.entries }
        ensures most { length self.now.entries ≤ MOST_ENTRIES }
    {
        self.entries.len() as u32
    }

    /// Whether there is no entry.
    pub fn is_empty(&self) -> bool
        ensures { IsTrue result ↔ (self.now.entries ≡ []) }
    {
        self.entries.is_empty()
    }

    /// The first position that has an entry of this id, where there is one. It is looked up in a
    /// table, whatever the log's length.
    pub fn position_of(&self, id: u64) -> Option<u32>
        ensures { result ≡ position_of self.now.entries id }
    {
        self.first.get(&id).copied()
    }
}
