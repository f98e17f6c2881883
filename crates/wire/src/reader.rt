//! Frames out of a stream that comes in pieces.

ghost use Rattle.std.specs.Prelude.{◌≡◌, ◌≤◌, ◌++◌, [], IfOk, IfErr, OnErr, vec_capacity};
ghost use Rattle.wire.specs.Stream.{Waits, front, IsBegun, Feeds, IsKept, IsHeld, Fed, Refuses};
ghost use Rattle.wire.specs.Stream.{Splits, SplitsOnlySo, stream_of, holding};
ghost use Rattle.wire.specs.model.Steps.{ReadsOn, StandsInFront};

use crate::NoMemory;
use crate::fault::WireFault;
use crate::frame::Frame;
use crate::stream::{MOST_BYTES, finish, hold, take_frames};
use std::alloc::Global;
use std::marker::Model;

/// What a stream holds.
#[derive(Drop)]
pub struct Received {
    /// Its frames, in order, up to the fault.
    pub frames: Vec<Frame>,
    /// The fault after them. None: less than a whole frame is left, and no fault.
    pub fault: Option<WireFault>,
}

/// Puts the frames of the bytes after those that were taken before, and holds what is left of the
/// bytes in place of what was held.
fn read_on(held: &mut Vec<u8>, before: Vec<Frame>, bytes: &[u8]) -> Result<Received, NoMemory>
    requires { 300004 ≤ vec_capacity held.old }
    ensures read { IfOk result (λ r.
        ReadsOn bytes.now before.items r.frames.items
        (record { held = held.new.items; fault = r.fault })) }
    ensures refused { OnErr result (IsBegun (front bytes.now) × (held.new.items ≡ held.old.items)) }
    ensures room { vec_capacity held.old ≤ vec_capacity held.new }
{
    let taken = take_frames(*held.allocator(), before, bytes)?;
    if taken.fault.is_none() {
        hold(held, &bytes[taken.size..]);
    } else {
        held.clear();
    }
    Ok(Received {
        frames: taken.frames,
        fault: taken.fault,
    })
}

/// The frames of the held bytes and the piece, and the fault after them, if one is there. What is
/// left is held.
fn read(held: &mut Vec<u8>, piece: &[u8]) -> Result<Received, NoMemory>
    requires room { 300004 ≤ vec_capacity held.old }
    requires waits { front held.old.items ≡ Waits }
    ensures read { IfOk result (λ r.
        Feeds (held.old.items ++ piece.now) r.frames.items
        (record { held = held.new.items; fault = r.fault })) }
    ensures begun { OnErr result (IsBegun (front (held.old.items ++ piece.now))) }
    ensures kept { OnErr result (StandsInFront held.old.items held.new.items) }
    ensures room { vec_capacity held.old ≤ vec_capacity held.new }
{
    let mut frames = Vec::new(*held.allocator());
    if held.is_empty() {
        return read_on(held, frames, piece);
    }
    match finish(held, piece) {
        Ok(Some((frame, size))) => {
            frames.push(frame)?;
            read_on(held, frames, &piece[size..])
        }
        Ok(None) => Ok(Received {
            frames,
            fault: None,
        }),
        Err(WireFault::NoMemory) => Err(NoMemory),
        Err(fault) => {
            held.clear();
            Ok(Received {
                frames,
                fault: Some(fault),
            })
        }
    }
}

/// Reads frames out of a stream that comes in pieces, however it was cut. It holds the beginning of
/// a frame whose end has not come yet, in room that it reserves once, and nothing else.
///
/// A contract sees the bytes that it holds and the fault that it keeps.
#[derive(Drop)]
pub struct FrameReader {
    /// The unfinished frame.
    bytes: Vec<u8>,
    fault: Option<WireFault>,
}

impl Model for FrameReader {
    ghost use Rattle.std.specs.Prelude.{◌≡◌, [], IsSome, vec_capacity, ◌≤◌};
    ghost use Rattle.wire.specs.Stream.{Reader, IsKept, front, Waits};

    ghost Value = { Reader };

    ghost view = { λ r. record { held = r.bytes.items; fault = r.fault } };

    ghost invariant = { λ r.
        (300004 ≤ vec_capacity r.bytes) × (front r.bytes.items ≡ Waits)
        × IsKept r.fault × (IsSome r.fault → r.bytes.items ≡ []) };
}

impl FrameReader {
    /// A reader at the beginning of a stream. It reserves 300,004 bytes, the most of a frame, and
    /// no more later on.
    pub fn new(alloc: Global) -> Result<FrameReader, NoMemory>
        ensures { IfOk result (λ reader. reader ≡ holding []) }
    {
        Ok(FrameReader {
            bytes: Vec::with_capacity(alloc, MOST_BYTES)?,
            fault: None,
        })
    }

    /// How many bytes it holds: those of the unfinished frame so far, at most 300,003, and 0 where
    /// a fault is kept or was answered.
    pub fn held(&self) -> u32
        ensures { IsHeld self.now result }
    {
        self.bytes.len() as u32
    }

    /// The fault that is kept, if there is one: each further call of `feed` answers it. Once it is
    /// here the frames in front of it were given.
    pub fn fault(&self) -> Option<WireFault>
        ensures fault { result ≡ self.now.fault }
        ensures kept { IsKept result }
    {
        self.fault
    }

    /// Takes the next piece of the stream, and gives the frames that are whole now, in order.
    ///
    /// A fault ends the stream: `BadLength` as soon as the four bytes of a length are there,
    /// `BadVersion`, `BadKind` and `BadBody` in this order once the whole frame is there. The
    /// frames in front of it are given first, and the next call answers it, also a call with no
    /// bytes; with no frame in front it is answered at once. From then on each call answers the
    /// same fault.
    ///
    /// Memory is taken for the frames that are given and for nothing else: `NoMemory` comes only
    /// where the piece makes a frame whole. Then the piece has not been taken, and may be fed
    /// again.
    ///
    /// The time is linear in the bytes of the piece and of the frames that it makes whole. A byte
    /// is moved once where it has to wait for a later piece, and no byte is moved again while it
    /// waits.
    pub fn feed(&mut self, piece: &[u8]) -> Result<Vec<Frame>, WireFault>
        ensures fed { IfOk result (λ frames. Fed piece.now self.old self.new frames.items) }
        ensures refused { IfErr result (λ e. Refuses e piece.now self.old self.new) }
    {
        if let Some(fault) = self.fault {
            return Err(fault);
        }
        let before = self.bytes.len();
        let Ok(received) = read(&mut self.bytes, piece) else {
            self.bytes.truncate(before);
            return Err(WireFault::NoMemory);
        };
        self.fault = received.fault;
        if received.frames.is_empty() {
            if let Some(fault) = received.fault {
                return Err(fault);
            }
        }
        Ok(received.frames)
    }
}

/// The frames of a stream that comes in these pieces, and the fault that ends it, if one does.
///
/// However the stream was cut, the answer is the same: the stream is these frames, and then the
/// beginning of a frame, or the fault, and there is no other way to read it. NoMemory is the only
/// error.
pub fn read_pieces(alloc: Global, pieces: &[Vec<u8>]) -> Result<Received, NoMemory>
    ensures splits { IfOk result (λ r. Splits (stream_of pieces.now) r.frames.items r.fault) }
    ensures only { IfOk result (λ r. SplitsOnlySo (stream_of pieces.now) r.frames.items r.fault) }
{
    let mut reader = FrameReader::new(alloc)?;
    let mut frames = Vec::new(alloc);
    for piece in pieces {
        match reader.feed(piece) {
            Ok(mut more) => frames.append(&mut more)?,
            Err(WireFault::NoMemory) => return Err(NoMemory),
            Err(fault) => {
                return Ok(Received {
                    frames,
                    fault: Some(fault),
                });
            }
        }
    }
    let fault = reader.fault();
    Ok(Received { frames, fault })
}
