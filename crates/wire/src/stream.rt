//! The frames at the front of a stream, where a part of the stream is held and a piece comes after
//! it.

ghost use Rattle.std.specs.Prelude.{◌≡◌, ◌≤◌, IfOk, OnErr, length, vec_capacity, Option};
ghost use Rattle.wire.specs.{Stream.Waits, Stream.front, Stream.IsBegun, model.Steps.StandsInFront};
ghost use Rattle.wire.specs.model.Steps.{GivesLength, GivesFront, IsTaken, IsToppedUp, Finishes};

use crate::NoMemory;
use crate::fault::WireFault;
use crate::frame::Frame;
use crate::reading::frame_of;
use std::alloc::Global;

/// The bytes of a length.
const LENGTH: usize = 4;

/// The least and the most bytes after a length.
const LEAST: usize = 8;

const MOST: usize = 300_000;

/// The most bytes of a frame.
pub(crate) const MOST_BYTES: usize = 300_004;

/// How many bytes the frame at the front has after its length. None: the length is not there yet.
fn counted(bytes: &[u8]) -> Result<Option<usize>, WireFault>
    ensures { GivesLength result bytes.now }
{
    let [a, b, c, d, ..] = bytes else {
        return Ok(None);
    };
    let len = u32::from_be_bytes([*a, *b, *c, *d]) as usize;
    if LEAST <= len && len <= MOST {
        Ok(Some(len))
    } else {
        Err(WireFault::BadLength)
    }
}

/// The frame at the front of a stream with the number of its bytes. None: no whole frame is there,
/// and no fault.
#[tactic(auto, unfolding(crate::specs::Stream::front))]
fn front(alloc: Global, bytes: &[u8]) -> Result<Option<(Frame, usize)>, WireFault>
    ensures { GivesFront result bytes.now (front bytes.now) }
{
    let Some(len) = counted(bytes)? else {
        return Ok(None);
    };
    let size = LENGTH + len;
    if bytes.len() < size {
        return Ok(None);
    }
    let frame = frame_of(alloc, &bytes[LENGTH..size])?;
    Ok(Some((frame, size)))
}

/// The frames at the front of a stream, the number of their bytes, and the fault that is after
/// them, if one is.
#[derive(Drop)]
pub(crate) struct DecodedFrames {
    pub(crate) frames: Vec<Frame>,
    pub(crate) size: usize,
    pub(crate) fault: Option<WireFault>,
}

/// Puts the frames at the front of a stream after those that were taken before.
pub(crate) fn take_frames(
    alloc: Global,
    before: Vec<Frame>,
    bytes: &[u8],
) -> Result<DecodedFrames, NoMemory>
    ensures taken { IfOk result (λ t.
        IsTaken bytes.now before.items t.frames.items t.size t.fault) }
    ensures refused { OnErr result (IsBegun (front bytes.now)) }
{
    let mut frames = before;
    let mut size = 0;
    loop {
        match front(alloc, &bytes[size..]) {
            Ok(Some((frame, more))) => {
                frames.push(frame)?;
                size += more;
            }
            Ok(None) => {
                return Ok(DecodedFrames {
                    frames,
                    size,
                    fault: None,
                });
            }
            Err(WireFault::NoMemory) => return Err(NoMemory),
            Err(fault) => {
                return Ok(DecodedFrames {
                    frames,
                    size,
                    fault: Some(fault),
                });
            }
        }
    }
}

/// Holds these bytes in place of what was held.
pub(crate) fn hold(held: &mut Vec<u8>, bytes: &[u8])
    requires { length bytes.now ≤ vec_capacity held.old }
    ensures held { held.new.items ≡ bytes.now }
    ensures room { vec_capacity held.old ≤ vec_capacity held.new }
{
    held.clear();
    held.extend_from_slice(bytes).unwrap();
}

/// Puts bytes of the piece after the held ones, to `size` of them if the piece goes so far, and
/// gives their number.
fn top_up(held: &mut Vec<u8>, size: usize, piece: &[u8]) -> usize
    requires { size ≤ vec_capacity held.old }
    ensures held { IsToppedUp size piece.now held.old.items held.new.items result }
    ensures room { vec_capacity held.old ≤ vec_capacity held.new }
{
    let added = size.saturating_sub(held.len()).min(piece.len());
    held.extend_from_slice(&piece[..added]).unwrap();
    added
}

/// Brings the frame whose beginning is held to its end, as far as the piece goes: the frame, with
/// the number of its bytes in the piece. None: it waits for more, and all of the piece is held.
pub(crate) fn finish(held: &mut Vec<u8>, piece: &[u8]) -> Result<Option<(Frame, usize)>, WireFault>
    requires room { 300004 ≤ vec_capacity held.old }
    requires waits { front held.old.items ≡ Waits }
    ensures finished { Finishes result held.old.items piece.now held.new.items }
    ensures kept { StandsInFront held.old.items held.new.items }
    ensures room { vec_capacity held.old ≤ vec_capacity held.new }
{
    let alloc = *held.allocator();
    let first = top_up(held, LENGTH, piece);
    let Some(len) = counted(held)? else {
        return Ok(None);
    };
    let size = LENGTH + len;
    let added = first + top_up(held, size, &piece[first..]);
    if held.len() < size {
        return Ok(None);
    }
    let frame = frame_of(alloc, &held[LENGTH..])?;
    Ok(Some((frame, added)))
}
