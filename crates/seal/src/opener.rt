//! What comes over a sealed connection, in whatever pieces.

ghost use Rattle.std.specs.Prelude.{◌≡◌, ◌≤◌, ◌+◌, [], IfOk, OnErr, Option, None, length};
ghost use Rattle.std.specs.Prelude.{vec_capacity, vec_len};
ghost use Rattle.seal.specs.Streams.{Fed, HandsOn, HandsOnOnly, begun, stream_of};
ghost use Rattle.seal.specs.model.Steps.{Takes};

use crate::NoMemory;
use crate::channel::Channel;
use crate::fault::StreamFault;
use crate::front::{MOST_BYTES, RecordFront, front_of, hand_on, hold};
use std::alloc::Global;
use std::marker::Model;

/// Opens one direction of a connection: it takes a stream in whatever pieces it comes, and hands on
/// the bodies of the records whose tags fit, up to the first that does not.
///
/// A contract sees its channel, the number of the next record, the bytes of that record that came,
/// and the fault that ended the stream.
#[derive(Drop)]
pub struct Opener {
    channel: Channel,
    number: u64,
    /// The unfinished record.
    bytes: Vec<u8>,
    fault: Option<StreamFault>,
}

impl Model for Opener {
    ghost use Rattle.std.specs.Prelude.{◌≡◌, ◌≤◌, [], IsSome, vec_capacity};
    ghost use Rattle.seal.specs.Streams.{Opening, Waits};

    ghost Value = { Opening };

    ghost view = { λ r. record {
      channel = r.channel;
      number = r.number;
      held = r.bytes.items;
      fault = r.fault;
    } };

    ghost invariant = { λ r.
        (16418 ≤ vec_capacity r.bytes) × Waits r.bytes.items
        × (IsSome r.fault → r.bytes.items ≡ []) };
}

impl Opener {
    /// An opener at the beginning of a stream, after the preface. It reserves 16,418 bytes, the
    /// most of a record, and no more later on.
    pub fn new(alloc: Global, channel: Channel) -> Result<Opener, NoMemory>
        ensures { IfOk result (λ opener. opener ≡
            record { channel = channel; number = 0; held = []; fault = None }) }
    {
        Ok(Opener {
            channel,
            number: 0,
            bytes: Vec::with_capacity(alloc, MOST_BYTES)?,
            fault: None,
        })
    }

    /// The number of the record that has begun to come and is not whole, if one has.
    pub fn begun(&self) -> Option<u64>
        ensures { result ≡ begun self.now }
    {
        if self.bytes.is_empty() {
            None
        } else {
            Some(self.number)
        }
    }

    /// The fault that ended the stream, if one did.
    pub fn fault(&self) -> Option<StreamFault>
        ensures { result ≡ self.now.fault }
    {
        self.fault
    }

    /// Takes the next piece of the stream, and hands on the bytes of the bodies that are whole now
    /// and whose tags fit.
    ///
    /// The first record that does not fit ends the stream: `fault` gives the reason from then on,
    /// and nothing is handed on any more. Memory is taken for what is handed on, in front of
    /// anything else: where it is refused nothing changes, and the piece may be fed again.
    pub fn feed(&mut self, piece: &[u8]) -> Result<Vec<u8>, NoMemory>
        ensures fed { IfOk result (λ handed. Fed piece.now self.old self.new handed.items) }
        ensures refused { OnErr result (self.new ≡ self.old) }
    {
        let alloc = *self.bytes.allocator();
        let mut handed = Vec::with_capacity(alloc, self.bytes.len() + piece.len())?;
        let mut taken = 0;
        while taken < piece.len() && self.fault.is_none() {
            taken += self.take(&piece[taken..], &mut handed);
        }
        Ok(handed)
    }

    /// Takes bytes of a piece, to the end of the length or of the record whose beginning is held,
    /// and hands on the body of a record that is whole then and fits. The number of these bytes.
    fn take(&mut self, piece: &[u8], handed: &mut Vec<u8>) -> usize
        requires unbroken { self.old.fault ≡ None }
        requires there { 1 ≤ length piece.now }
        requires room { vec_len handed.old + length self.old.held + length piece.now
            ≤ vec_capacity handed.old }
        ensures taken { Takes piece.now self.old self.new handed.old.items handed.new.items result }
        ensures room { vec_capacity handed.old ≤ vec_capacity handed.new }
    {
        let added = hold(&mut self.bytes, piece);
        match front_of(&self.channel, self.number, &self.bytes) {
            RecordFront::Waits => {}
            RecordFront::Fits => {
                hand_on(&self.bytes, handed);
                self.bytes.clear();
                self.number += 1;
            }
            RecordFront::Breaks(fault) => {
                self.bytes.clear();
                self.fault = Some(fault);
            }
        }
        added
    }
}

/// What a stream holds.
#[derive(Drop)]
pub struct OpenedStream {
    /// The bytes of the bodies, in order, up to the fault.
    pub bytes: Vec<u8>,
    /// The fault that ended it. None: less than a whole record is left.
    pub fault: Option<StreamFault>,
}

/// What is handed on of a stream that comes in these pieces, after the preface, and the fault that
/// ends it, if one does.
///
/// However the stream was cut, the answer is the same: the stream is the records of these bodies,
/// and then less than a record, or the fault, and there is no other way to read it.
pub fn open_pieces(
    alloc: Global,
    channel: Channel,
    pieces: &[Vec<u8>],
) -> Result<OpenedStream, NoMemory>
    ensures hands_on { IfOk result (λ r.
        HandsOn channel (stream_of pieces.now) r.bytes.items r.fault) }
    ensures only { IfOk result (λ r.
        HandsOnOnly channel (stream_of pieces.now) r.bytes.items r.fault) }
{
    let mut opener = Opener::new(alloc, channel)?;
    let mut bytes = Vec::new(alloc);
    for piece in pieces {
        bytes.append(&mut opener.feed(piece)?)?;
    }
    let fault = opener.fault();
    Ok(OpenedStream { bytes, fault })
}
