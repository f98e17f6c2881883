//! The fields of a Decided, from bytes: a position and the entries from there on.

ghost use Rattle.wire.specs.Reading.{told_count_at, count_at, decided_of};
ghost use Rattle.wire.specs.model.Gives.{GivesField, GivesBody};

use crate::entries::Entries;
use crate::fault::WireFault;
use crate::fields::{byte_of, end, position_of};
use crate::frame::FrameBody;
use crate::run::{pass_entries, push_entries};
use crate::values::Version;
use acceptor::MOST_ENTRIES;
use std::alloc::Global;

/// The most entries of a Decided of a version from 2 on.
const MOST_TOLD: u8 = 16;

/// A byte that says how many entries there are, 1 to 16.
fn told_count_of(bytes: &[u8]) -> Result<(u8, &[u8]), WireFault>
    ensures { GivesField (λ x. (x.0, x.1.now)) result (told_count_at bytes.now) }
{
    let (count, rest) = byte_of(bytes)?;
    if 1 <= count && count <= MOST_TOLD {
        Ok((count, rest))
    } else {
        Err(WireFault::BadBody)
    }
}

/// How many entries there are: one in version 1; in the later ones a byte says it.
#[tactic(auto, unfolding(crate::specs::Reading::count_at))]
fn count_of(version: Version, bytes: &[u8]) -> Result<(u8, &[u8]), WireFault>
    ensures { GivesField (λ x. (x.0, x.1.now)) result (count_at version bytes.now) }
{
    match version {
        Version::One => Ok((1, bytes)),
        Version::Two | Version::Three | Version::Four | Version::Five => told_count_of(bytes),
    }
}

/// The fields of a Decided. Memory is taken only where they are good.
pub(crate) fn decided_of(
    alloc: Global,
    version: Version,
    bytes: &[u8],
) -> Result<FrameBody, WireFault>
    ensures { GivesBody result (decided_of version bytes.now) }
{
    let (pos, rest) = position_of(bytes)?;
    let (count, rest) = count_of(version, rest)?;
    end(pass_entries(u16::from(count), rest)?)?;
    if MOST_ENTRIES - u32::from(count) < pos {
        return Err(WireFault::BadBody);
    }
    let mut entries = Entries::none(alloc);
    push_entries(alloc, &mut entries, u16::from(count), rest)?;
    Ok(FrameBody::Decided { pos, entries })
}
