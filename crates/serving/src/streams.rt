//! Connections that are served over a reader and a writer.

ghost use Rattle.std.specs.Prelude.{◌≡◌, ◌<◌};
ghost use Rattle.wire.specs.Laws.{IsVersion};
ghost use Rattle.serving.specs.{Making.spoken, Turns.IsFree, Turns.WantsRead, model.Turning.GoesOn};
ghost use Rattle.serving.specs.Sessions.{ServesReader, ServesSource, line};
ghost use Rattle.serving.specs.model.Sessions.{ServesPiece, ServesWaiting};

use crate::connection::Connection;
use crate::ends::{ConnectionEnd, ServingOutcome};
use crate::peers::Peers;
use crate::permission::Permission;
use crate::source::{CountedReader, MOST_READS, Source};
use answers::Desk;
use std::alloc::Global;
use std::io::{ErrorKind, Read, Write};
use wire::Version;

/// Serves the frames that wait, and writes the answer of each before the next is begun. Where the
/// connection ended, that end is given.
fn serve_waiting<D: Desk, W: Write, P: Peers>(
    connection: &mut Connection,
    node: &mut D,
    peers: &mut P,
    writer: &mut W,
    may: Permission,
) -> Option<ConnectionEnd>
    requires home { D.home_of node.old ≡ connection.old.home }
    requires free { IsFree connection.old }
    requires open { connection.old.frames < 64 }
    ensures waiting { ServesWaiting D.Desk P.Peers W.Write may result connection.old connection.new
        (line node.old peers.old writer.old) (line node.new peers.new writer.new) }
    ensures home { D.home_of node.new ≡ D.home_of node.old }
{
    while connection.advance(node, peers, may, None) {
        if connection.write_out(writer).is_err() {
            return Some(ConnectionEnd::Write);
        }
    }
    connection.end()
}

/// Serves the frames that are whole with this piece of the stream. Where the connection ended, that
/// end is given.
fn serve_piece<D: Desk, W: Write, P: Peers>(
    connection: &mut Connection,
    node: &mut D,
    peers: &mut P,
    writer: &mut W,
    may: Permission,
    piece: &[u8],
) -> Option<ConnectionEnd>
    requires home { D.home_of node.old ≡ connection.old.home }
    requires read { WantsRead connection.old }
    requires open { connection.old.frames < 64 }
    ensures piece { ServesPiece D.Desk P.Peers W.Write may result piece.now
        connection.old connection.new (line node.old peers.old writer.old)
        (line node.new peers.new writer.new) }
    ensures goes_on { GoesOn result connection.old connection.new }
    ensures home { D.home_of node.new ≡ D.home_of node.old }
{
    connection.receive(piece);
    match connection.end() {
        Some(end) => Some(end),
        None => serve_waiting(connection, node, peers, writer, may),
    }
}

/// Serves a connection over a reader that counts its reads, frame by frame, until one of its ends.
pub fn serve_source<D: Desk, S: Source, W: Write, P: Peers>(
    alloc: Global,
    source: &mut S,
    writer: &mut W,
    node: &mut D,
    peers: &mut P,
    wire: Version,
    may: Permission,
) -> ServingOutcome
    requires fresh { S.reads source.old ≡ 0 }
    requires whole { S.failed source.old ≡ 0 }
    ensures served { ServesSource D.Desk P.Peers W.Write S.Source wire may result
        (line node.old peers.old writer.old) (line node.new peers.new writer.new)
        source.old source.new }
    ensures home { D.home_of node.new ≡ D.home_of node.old }
{
    let Ok(mut connection) = Connection::new(alloc, node, wire) else {
        return ServingOutcome {
            frames: 0,
            end: ConnectionEnd::NoMemory,
        };
    };
    let mut buffer = [0; 4096];
    let mut reads: u32 = 0;
    while reads < MOST_READS {
        reads += 1;
        match source.read_once(&mut buffer) {
            Ok(0) => return connection.served(ConnectionEnd::End),
            Ok(count) => {
                let piece = &buffer[..count];
                if let Some(end) = serve_piece(&mut connection, node, peers, writer, may, piece) {
                    return connection.served(end);
                }
            }
            Err(error) => {
                if error.kind() != ErrorKind::Interrupted {
                    return connection.served(ConnectionEnd::Read);
                }
            }
        }
    }
    connection.served(ConnectionEnd::Reads)
}

/// The version that has this number.
fn spoken(wire: u8) -> Version
    ensures { result ≡ spoken wire }
{
    match wire {
        5 => Version::Five,
        4 => Version::Four,
        3 => Version::Three,
        2 => Version::Two,
        _ => Version::One,
    }
}

/// Serves a connection of a desk, frame by frame, until one of its ends: the stream's end, a Stop,
/// 64 frames, 19,200,256 reads, a fault of the stream, a read or a write that fails, a store that
/// fails, or want of memory. Each frame's answer is written before the next frame is begun, in the
/// version of that frame. What is said to desks is pushed in the version `wire`, 1 to 5; all
/// are read. No frame is served beyond what the connection `may` ask, and an Await is answered as
/// an Ask, since no time is known here.
pub fn serve_connection<D: Desk, R: Read + Drop, W: Write, P: Peers>(
    alloc: Global,
    reader: R,
    writer: &mut W,
    node: &mut D,
    peers: &mut P,
    wire: u8,
    may: Permission,
) -> ServingOutcome
    requires version { IsVersion wire }
    ensures served { ServesReader D.Desk P.Peers W.Write (spoken wire) may result
        (line node.old peers.old writer.old) (line node.new peers.new writer.new)
        (R.remaining reader) }
    ensures home { D.home_of node.new ≡ D.home_of node.old }
{
    let mut source = CountedReader::new(reader);
    serve_source(alloc, &mut source, writer, node, peers, spoken(wire), may)
}
