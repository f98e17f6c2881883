//! The fields of an Entries, from bytes: entries of a log from a position on.

ghost use Rattle.wire.specs.Reading.{log_count_at, entries_of};
ghost use Rattle.wire.specs.model.Gives.{GivesField, GivesBody};

use crate::entries::Entries;
use crate::fault::WireFault;
use crate::fields::{end, log_length_of, u16_of};
use crate::frame::FrameBody;
use crate::run::{pass_entries, push_entries};
use std::alloc::Global;

/// The most entries of an Entries.
const MOST_OF_LOG: u16 = 400;

/// How many entries there are: two bytes, at most 400.
#[tactic(auto, unfolding(crate::specs::Reading::log_count_at))]
fn log_count_of(bytes: &[u8]) -> Result<(u16, &[u8]), WireFault>
    ensures { GivesField (λ x. (x.0, x.1.now)) result (log_count_at bytes.now) }
{
    let (count, rest) = u16_of(bytes)?;
    if count <= MOST_OF_LOG {
        Ok((count, rest))
    } else {
        Err(WireFault::BadBody)
    }
}

/// The fields of an Entries. Memory is taken only where they are good.
pub(crate) fn entries_of(alloc: Global, bytes: &[u8]) -> Result<FrameBody, WireFault>
    ensures { GivesBody result (entries_of bytes.now) }
{
    let (position, rest) = log_length_of(bytes)?;
    let (length, rest) = log_length_of(rest)?;
    let (count, rest) = log_count_of(rest)?;
    end(pass_entries(count, rest)?)?;
    if count != 0 && length < position + u32::from(count) {
        return Err(WireFault::BadBody);
    }
    let mut entries = Entries::none(alloc);
    push_entries(alloc, &mut entries, count, rest)?;
    Ok(FrameBody::Entries {
        position,
        length,
        entries,
    })
}
