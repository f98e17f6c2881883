//! The first frame of a stream.

ghost use Rattle.std.specs.Prelude.{◌≡◌, ◌++◌, [], None, IfOk, IfErr};
ghost use Rattle.wire.specs.Stream.{holding};
ghost use Rattle.client.specs.Hearing.{GivesFirst, Heard, HeardNone, LacksFor};

use crate::fault::ClientFault;
use std::io::Read;
use wire::{Frame, FrameReader, WireFault};

/// The most bytes of a frame, and so the most reads of which each gives a byte of one.
const MOST_READS: u32 = 300_004;

/// The first frame that is whole once this piece of the stream was read, if there is one.
fn first_frame(stream: &mut FrameReader, piece: &[u8]) -> Result<Option<Frame>, ClientFault>
    requires unbroken { stream.old.fault ≡ None }
    ensures ok { IfOk result
        (λ given. GivesFirst stream.new (stream.old.held ++ piece.now) given) }
    ensures err { IfErr result (λ e. LacksFor e (stream.old.held ++ piece.now)) }
{
    match stream.feed(piece) {
        Ok(frames) => Ok(frames.into_iter().next()),
        Err(WireFault::NoMemory) => Err(ClientFault::NoMemory),
        Err(_) => Err(ClientFault::NoAnswer),
    }
}

/// Reads pieces of at most 4,096 bytes until a whole frame was read, and returns it. An interrupted
/// read counts as a failed one.
pub fn hear<R: Read>(reader: &mut R, stream: &mut FrameReader) -> Result<Frame, ClientFault>
    requires fresh { stream.old ≡ holding [] }
    ensures ok { IfOk result (Heard (R.remaining reader.old) (R.remaining reader.new)) }
    ensures err { IfErr result (HeardNone (R.remaining reader.old) (R.remaining reader.new)) }
{
    let mut piece = [0; 4096];
    for _read in 0..MOST_READS {
        let Ok(count) = reader.read(&mut piece) else {
            return Err(ClientFault::NoAnswer);
        };
        if count == 0 {
            return Err(ClientFault::NoAnswer);
        }
        if let Some(frame) = first_frame(stream, &piece[..count])? {
            return Ok(frame);
        }
    }
    Err(ClientFault::NoAnswer)
}
