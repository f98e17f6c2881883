//! Entries in a row, as a Decided and an Entries have them.

use crate::NoMemory;
use acceptor::entry::Entry;
use std::alloc::Global;
use std::marker::Model;

/// Entries that are in a log one after the other.
#[derive(Debug, Drop)]
pub struct Entries {
    items: Vec<Entry>,
}

impl Model for Entries {
    ghost use Rattle.std.specs.Prelude.{List};
    ghost use Rattle.std.specs.List.{AllByRecursion};
    ghost use Rattle.acceptor.specs.declared.entry.Entry.{Entry};
    ghost use Rattle.wire.specs.Entries.{IsEntry};

    ghost Value = { List Entry };

    ghost view = { λ e. e.items.items };

    ghost invariant = { λ e. AllByRecursion IsEntry e.items.items };
}

impl PartialEq for Entries {
    ghost use Rattle.std.proofs.Common.{rules};
    ghost use Rattle.std.specs.Cmp.Rules.{comparing};
    ghost use Rattle.std.specs.Cmp.Lexicographic.{pointwise, lists_per};
    ghost use Rattle.acceptor.specs.Entries.{is_same_entry};

    ghost eq = { pointwise is_same_entry };

    ghost laws = { lists_per (Prim.search (comparing, rules)) };

    fn eq(&self, other: &Entries) -> bool {
        self.items == other.items
    }
}

impl Eq for Entries {
    ghost use Rattle.std.proofs.Common.{rules};
    ghost use Rattle.std.specs.Cmp.Rules.{comparing};
    ghost use Rattle.std.specs.Cmp.Lexicographic.{lists_equiv};

    ghost laws = { lists_equiv (Prim.search (comparing, rules)) };
}

impl Entries {
    ghost use Rattle.std.specs.Prelude.{◌≡◌, ◌∷◌, ◌++◌, [], IfOk, OnOk, OnErr};
    ghost use Rattle.std.specs.List.{AllByRecursion};
    ghost use Rattle.wire.specs.Entries.{IsEntry};

    /// No entry. It takes no memory.
    pub fn none(alloc: Global) -> Entries
        ensures { result ≡ [] }
    {
        Entries {
            items: Vec::new(alloc),
        }
    }

    /// One entry.
    pub fn one(alloc: Global, entry: Entry) -> Result<Entries, NoMemory>
        ensures { IfOk result (λ entries. entries ≡ entry ∷ []) }
    {
        let mut entries = Entries::none(alloc);
        entries.push(entry)?;
        Ok(entries)
    }

    /// Puts an entry after the others. NoMemory leaves them as they were.
    pub fn push(&mut self, entry: Entry) -> Result<(), NoMemory>
        ensures pushed { OnOk result (self.new ≡ self.old ++ entry ∷ []) }
        ensures refused { OnErr result (self.new ≡ self.old) }
    {
        // The id and the text are in their ranges: the contracts of these two calls say so.
        let _id = entry.id();
        let _text = entry.text();
        self.items.push(entry)?;
        Ok(())
    }

    /// The entries as a slice.
    pub fn as_slice(&self) -> &[Entry]
        ensures entries { result.now ≡ self.now }
        ensures in_range { AllByRecursion IsEntry result.now }
    {
        self.items.as_slice()
    }

    /// The `Vec` of the entries, with no copy made.
    pub fn into_vec(self) -> Vec<Entry>
        ensures entries { result.items ≡ self }
        ensures in_range { AllByRecursion IsEntry result.items }
    {
        let Entries { items } = self;
        items
    }
}
