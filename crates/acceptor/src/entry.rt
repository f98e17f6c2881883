//! Entries, which are in the log.

ghost use Rattle.std.specs.Prelude.{◌≡◌, ◌<◌, ◌↔◌, IfOk, IsErrOf};
ghost use Rattle.acceptor.specs.Entries.{IsId, IsText};

use crate::NoMemory;
use std::alloc::{AllocError, Global};
use std::marker::Model;

/// The greatest id of an entry, 2^63 - 1.
const MOST_ID: u64 = 9_223_372_036_854_775_807;

/// The most bytes in the text of an entry.
const MOST_TEXT: usize = 600;

/// What is at one position of the log: an id of 1 to 2^63 - 1, and a text of 0 to 600 bytes.
#[derive(Debug, Drop)]
pub struct Entry {
    id: u64,
    text: Vec<u8>,
}

impl Model for Entry {
    ghost use Rattle.acceptor.specs.Entries.{EntryValue, IsId, IsText};

    ghost Value = { EntryValue };

    ghost view = { λ e. record { id = e.id; text = e.text.items } };

    ghost invariant = { λ e. IsId e.id × IsText e.text.items };
}

/// Why no entry is made.
#[derive(Clone, Copy, PartialEq, Eq, Debug)]
pub enum EntryFault {
    /// The id is 0 or above 2^63 - 1.
    BadId,
    /// The id is good, and the text has more than 600 bytes.
    TooLong,
    /// Both are good, and memory was refused.
    NoMemory,
}

impl From<AllocError> for EntryFault {
    ghost use Rattle.std.specs.Prelude.{◌≡◌};
    ghost use Rattle.acceptor.specs.declared.entry.EntryFault.TheVariants.{NoMemory};

    ghost from_gives = { λ _ fault. fault ≡ NoMemory };

    fn from(_: AllocError) -> EntryFault {
        EntryFault::NoMemory
    }
}

impl PartialEq for Entry {
    ghost use Rattle.std.proofs.Common.{rules};
    ghost use Rattle.std.specs.Cmp.Rules.{comparing};
    ghost use Rattle.acceptor.specs.Entries.{is_same_entry};

    ghost eq = { is_same_entry };

    ghost laws = { Prim.search (comparing, rules) };

    fn eq(&self, other: &Entry) -> bool {
        other.id == self.id && other.text == self.text
    }
}

impl Eq for Entry {
    ghost use Rattle.std.proofs.Common.{rules};
    ghost use Rattle.std.specs.Cmp.Rules.{comparing};

    ghost laws = { Prim.search (comparing, rules) };
}

impl Entry {
    /// An entry with this id and a copy of this text.
    pub fn new(alloc: Global, id: u64, text: &[u8]) -> Result<Entry, EntryFault>
        ensures made { IfOk result (λ e. e ≡ record { id = id; text = text.now }) }
        ensures bad_id { IsErrOf result EntryFault.BadId ↔ (¬ IsId id) }
        ensures too_long { IsErrOf result EntryFault.TooLong ↔ (IsId id × (¬ IsText text.now)) }
    {
        if id == 0 || id > MOST_ID {
            return Err(EntryFault::BadId);
        }
        if text.len() > MOST_TEXT {
            return Err(EntryFault::TooLong);
        }
        let text = Vec::from_slice(alloc, text)?;
        Ok(Entry { id, text })
    }

    /// The id, 1 to 2^63 - 1.
    pub fn id(&self) -> u64
        ensures id { result ≡ self.now.id }
        ensures in_range { IsId result }
    {
        self.id
    }

    /// The text, 0 to 600 bytes.
    pub fn text(&self) -> &[u8]
        ensures text { result.now ≡ self.now.text }
        ensures in_range { IsText result.now }
    {
        self.text.as_slice()
    }

    /// An equal entry, made with the allocator of this one. Where memory is refused, the answer is
    /// NoMemory.
    pub fn copy(&self) -> Result<Entry, NoMemory>
        ensures { IfOk result (λ e. e ≡ self.now) }
    {
        self.copy_in(*self.text.allocator())
    }

    /// An equal entry, made with this allocator. Where memory is refused, the answer is NoMemory.
    pub fn copy_in(&self, alloc: Global) -> Result<Entry, NoMemory>
        ensures { IfOk result (λ e. e ≡ self.now) }
    {
        let text = Vec::from_slice(alloc, self.text.as_slice())?;
        Ok(Entry { id: self.id, text })
    }
}
