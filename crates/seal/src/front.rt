//! The record at the front of a stream, whose bytes come one after the other.

ghost use Rattle.std.specs.Prelude.{◌≡◌, ◌≤◌, ◌<◌, ◌+◌, ◌-◌, ◌++◌, length, slice_range};
ghost use Rattle.std.specs.Prelude.{vec_capacity, vec_len};
ghost use Rattle.seal.specs.Streams.{Waits};
ghost use Rattle.seal.specs.model.Steps.{IsSize, IsBegun, IsToppedUp, IsFront};

use crate::channel::Channel;
use crate::fault::StreamFault;
use crate::record::{LENGTH, TAG, fits};

/// The most bytes of a record.
pub(crate) const MOST_BYTES: usize = 16_418;

/// How many bytes the record has whose first bytes these are, as far as they tell.
fn size_of(bytes: &[u8]) -> usize
    ensures { IsSize result bytes.now }
{
    let [a, b, ..] = bytes else {
        return LENGTH;
    };
    LENGTH + u16::from_be_bytes([*a, *b]) as usize + TAG
}

/// Holds bytes of a piece after those that are held, as far as the length or the record goes. Their
/// number.
pub(crate) fn hold(held: &mut Vec<u8>, piece: &[u8]) -> usize
    requires room { 16418 ≤ vec_capacity held.old }
    requires waits { Waits held.old.items }
    requires there { 1 ≤ length piece.now }
    ensures held { IsToppedUp piece.now held.old.items held.new.items result }
    ensures room { vec_capacity held.old ≤ vec_capacity held.new }
{
    let more = size_of(held).saturating_sub(held.len());
    let added = more.min(piece.len());
    held.extend_from_slice(&piece[..added]).unwrap();
    added
}

/// What the bytes at the front of a stream are, which go no further than a record.
#[derive(Drop)]
pub(crate) enum RecordFront {
    /// The beginning of a record.
    Waits,
    /// A whole record whose tag fits.
    Fits,
    /// No record.
    Breaks(StreamFault),
}

/// What the bytes at the front are, where the next record has this number.
pub(crate) fn front_of(channel: &Channel, number: u64, bytes: &[u8]) -> RecordFront
    requires { IsBegun bytes.now }
    ensures { IsFront result channel.now number bytes.now }
{
    if bytes.len() < LENGTH {
        return RecordFront::Waits;
    }
    let size = size_of(bytes);
    if size == LENGTH + TAG || size > MOST_BYTES {
        return RecordFront::Breaks(StreamFault::BadLength);
    }
    if bytes.len() < size {
        return RecordFront::Waits;
    }
    if fits(channel, number, bytes) {
        RecordFront::Fits
    } else {
        RecordFront::Breaks(StreamFault::BadTag)
    }
}

/// Hands on the body of a whole record.
pub(crate) fn hand_on(bytes: &[u8], handed: &mut Vec<u8>)
    requires whole { 34 ≤ length bytes.now }
    requires room { vec_len handed.old + length bytes.now ≤ vec_capacity handed.old }
    ensures handed { handed.new.items
        ≡ handed.old.items ++ slice_range bytes.now 2 (length bytes.now - 32) }
    ensures room { vec_capacity handed.old ≤ vec_capacity handed.new }
{
    let body = &bytes[LENGTH..bytes.len() - TAG];
    handed.extend_from_slice(body).unwrap();
}
