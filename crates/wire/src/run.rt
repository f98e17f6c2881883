//! Entries one after the other, from bytes.

ghost use Rattle.std.specs.Prelude.{option_map};
ghost use Rattle.wire.specs.{Reading.entries_at, model.Gives.GivesField, model.Gives.PushesEntries};

use crate::entries::Entries;
use crate::fault::WireFault;
use crate::fields::entry_of;
use std::alloc::Global;

/// What is after this many entries. It takes no memory.
pub(crate) fn pass_entries(count: u16, bytes: &[u8]) -> Result<&[u8], WireFault>
    ensures { GivesField (λ x. x.now) result
        (option_map (λ x. x.1) (entries_at count bytes.now)) }
{
    let mut rest = bytes;
    for _ in 0..count {
        let (_, after) = entry_of(rest)?;
        rest = after;
    }
    Ok(rest)
}

/// Puts this many entries after others.
pub(crate) fn push_entries(
    alloc: Global,
    entries: &mut Entries,
    count: u16,
    bytes: &[u8],
) -> Result<(), WireFault>
    ensures { PushesEntries result entries.old entries.new (entries_at count bytes.now) }
{
    let mut rest = bytes;
    for _ in 0..count {
        let (entry, after) = entry_of(rest)?;
        entries.push(entry.to_entry(alloc)?)?;
        rest = after;
    }
    Ok(())
}
