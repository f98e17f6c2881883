//! A connection that is served by turns, and neither reads nor writes of itself.

ghost use Rattle.std.specs.Prelude.{◌≡◌, ◌≢◌, ◌≤◌, ◌↔◌, [], length, IfOk, IfSome, OnOk, OnErr};
ghost use Rattle.std.specs.{Prelude.IsTrue, Prelude.option_map, Io.KnownBytes.Appends};
ghost use Rattle.lines.specs.Bytes.{AppendsPart};
ghost use Rattle.serving.specs.Kinds.{dear_next, is_dear, is_message, message_next};
ghost use Rattle.wire.specs.Ranges.{IsDifference, IsFrame};
ghost use Rattle.serving.specs.{Differing.first_frame, Turns.new_talk, model.Turning.end_after};
ghost use Rattle.serving.specs.Turns.{Advances, IsFree, Receives, WantsRead, after_sent, moment};

use crate::ends::{ConnectionEnd, FrameEnd, ServingOutcome};
use crate::peers::Peers;
use crate::permission::Permission;
use crate::session::Session;
use acceptor::NoMemory;
use answers::Desk;
use lines::{WriteFailed, write_text};
use std::alloc::Global;
use std::collections::VecDeque;
use std::io::Write;
use std::marker::Model;
use std::mem;
use wire::{Difference, Frame, FrameBody, FrameReader, Version, WireFault};

/// The most frames of a connection.
const MOST_FRAMES: u32 = 64;

/// How a frame that was served leaves its connection, of which it is the frame with this number.
fn end_after(close: Option<FrameEnd>, number: u32) -> Option<ConnectionEnd>
    ensures { result ≡ end_after close number }
{
    match close {
        Some(FrameEnd::Stopped) => Some(ConnectionEnd::Stopped),
        Some(FrameEnd::Down) => Some(ConnectionEnd::Down),
        None => {
            if number == MOST_FRAMES {
                Some(ConnectionEnd::Frames)
            } else {
                None
            }
        }
    }
}

/// Whether a frame asks for a sheet or for entries of the log.
fn is_dear(what: &FrameBody) -> bool
    ensures { result ≡ is_dear what.now }
{
    match what {
        FrameBody::Sheet { .. } | FrameBody::Log { .. } => true,
        _ => false,
    }
}

/// Whether a frame is a message of a desk to a desk.
fn is_message(what: &FrameBody) -> bool
    ensures { result ≡ is_message what.now }
{
    match what {
        FrameBody::Prepare { .. }
        | FrameBody::Promise { .. }
        | FrameBody::Accept { .. }
        | FrameBody::Accepted { .. }
        | FrameBody::Nack { .. }
        | FrameBody::Behind { .. }
        | FrameBody::Decided { .. } => true,
        _ => false,
    }
}

/// A connection of a desk, served by turns: `receive` takes a piece of what came, `advance` serves
/// the next frame, and `output` is what is to be sent. It makes no system call, so one thread can
/// serve many connections of one desk, each as far as it has come.
///
/// A frame is begun only once the answer before it was taken whole. So it holds at most the
/// beginning of a frame (300,004 bytes are reserved for it), the frames that the last piece made
/// whole, and one answer, which is one frame.
///
/// A contract sees what it has between two turns.
#[derive(Drop)]
pub struct Connection {
    session: Session,
    stream: FrameReader,
    /// The frames that are whole and were not begun.
    waiting: VecDeque<Frame>,
    /// How many frames were begun.
    frames: u32,
    /// The last answer, and how many bytes of it were taken.
    answer: Vec<u8>,
    taken: usize,
    end: Option<ConnectionEnd>,
}

impl Model for Connection {
    ghost use Rattle.std.specs.Prelude.{◌≡◌, ◌≤◌, ◌<◌, None, drop, length};
    ghost use Rattle.std.specs.List.{AllByRecursion};
    ghost use Rattle.wire.specs.Ranges.{IsFrame};
    ghost use Rattle.serving.specs.Turns.{Talk};

    ghost Value = { Talk };

    ghost view = { λ c. record {
      home = c.session.home;
      wire = c.session.wire;
      stream = c.stream;
      waiting = c.waiting.items;
      frames = c.frames;
      pending = drop c.taken c.answer.items;
      end = c.end;
    } };

    ghost invariant = { λ c. AllByRecursion IsFrame c.waiting.items
        × (c.taken ≤ length c.answer.items) × (c.frames ≤ 64)
        × (c.end ≡ None → c.frames < 64) };
}

impl Connection {
    /// A connection with this desk that brought nothing yet. What is said to desks is pushed
    /// in the version `wire`; all versions are read.
    pub fn new<D: Desk>(alloc: Global, node: &D, wire: Version) -> Result<Connection, NoMemory>
        ensures { IfOk result (λ c. c ≡ new_talk (D.home_of node.now) wire) }
    {
        let home = node.home();
        let stream = FrameReader::new(alloc)?;
        Ok(Connection {
            session: Session { alloc, home, wire },
            stream,
            waiting: VecDeque::new(alloc),
            frames: 0,
            answer: Vec::new(alloc),
            taken: 0,
            end: None,
        })
    }

    /// Whether a frame may be begun: neither did it end, nor is anything of an answer still to be
    /// taken.
    fn is_free(&self) -> bool
        ensures { IsTrue result ↔ IsFree self.now }
    {
        match self.end {
            Some(_) => false,
            None => self.output().is_empty(),
        }
    }

    /// Whether the next piece of the stream may come: the connection is open, and all that came
    /// before is served and its answers are taken.
    pub fn wants_read(&self) -> bool
        ensures { IsTrue result ↔ WantsRead self.now }
    {
        match self.stream.fault() {
            Some(_) => false,
            None => self.waiting.is_empty() && self.is_free(),
        }
    }

    /// Whether a frame waits, and the next one asks for a sheet or for entries of the log.
    pub fn is_dear(&self) -> bool
        ensures { result ≡ dear_next self.now.waiting }
    {
        match self.waiting.front() {
            Some(frame) => is_dear(&frame.what),
            None => false,
        }
    }

    /// Whether a frame waits, and the next one is a message of a desk to a desk.
    pub fn hears_desk(&self) -> bool
        ensures { result ≡ message_next self.now.waiting }
    {
        match self.waiting.front() {
            Some(frame) => is_message(&frame.what),
            None => false,
        }
    }

    /// The frame that is begun next, if one waits.
    pub fn next(&self) -> Option<&Frame>
        ensures first { option_map (λ f. f.now) result ≡ first_frame self.now.waiting }
        ensures spelled { IfSome result (λ f. IsFrame f.now) }
    {
        self.waiting.front()
    }

    /// Takes the next piece of the stream. The frames that are whole with it wait for their turns.
    /// Where a fault is at the front, or memory is refused, that is the connection's end.
    pub fn receive(&mut self, piece: &[u8])
        requires { WantsRead self.old }
        ensures { Receives piece.now self.old self.new }
    {
        match self.stream.feed(piece) {
            Ok(frames) => self.waiting = VecDeque::from(frames),
            Err(WireFault::NoMemory) => self.end = Some(ConnectionEnd::NoMemory),
            Err(fault) => self.end = Some(ConnectionEnd::Fault(fault)),
        }
    }

    /// Serves the next frame, if one waits, the connection is open, and nothing of an answer is
    /// still to be taken, and returns whether it did: its calls and pushes are made, and its answer
    /// is to be sent. A frame that asks for more than `may` makes no call and no push: a message of
    /// a desk is dropped, and a client is refused. Where another desk `differs`, no command is
    /// taken, and a Standing says it. Once all that came is served, a fault that is after it ends
    /// the connection. Call it after each piece, and each time that an answer was taken whole,
    /// until it returns false.
    pub fn advance<D: Desk, P: Peers>(
        &mut self,
        node: &mut D,
        peers: &mut P,
        may: Permission,
        differs: Option<Difference>,
    ) -> bool
        requires home { D.home_of node.old ≡ self.old.home }
        requires differs { IsDifference differs }
        ensures turn { Advances D.Desk P.Peers may differs result
            (moment node.old peers.old self.old) (moment node.new peers.new self.new) }
        ensures home { D.home_of node.new ≡ D.home_of node.old }
    {
        if !self.is_free() {
            return false;
        }
        let Some(frame) = self.waiting.pop_front() else {
            if let Some(fault) = self.stream.fault() {
                self.end = Some(ConnectionEnd::Fault(fault));
            }
            return false;
        };
        self.frames += 1;
        match self.session.serve_frame(node, peers, may, differs, frame) {
            Ok(reply) => {
                self.answer = reply.bytes;
                self.taken = 0;
                self.end = end_after(reply.close, self.frames);
            }
            Err(NoMemory) => self.end = Some(ConnectionEnd::NoMemory),
        }
        true
    }

    /// What of the answer is still to be sent.
    pub fn output(&self) -> &[u8]
        ensures { result.now ≡ self.now.pending }
    {
        &self.answer[self.taken..]
    }

    /// Takes all of the output at once, and moves it where nothing of it was taken before.
    pub fn take_output(&mut self) -> Vec<u8>
        ensures output { result.items ≡ self.old.pending }
        ensures after { self.new ≡ after_sent self.old (length self.old.pending) }
    {
        let none = Vec::new(self.session.alloc);
        let mut output = mem::replace(&mut self.answer, none);
        output.drain(..self.taken);
        self.taken = 0;
        output
    }

    /// Whether something is to be sent.
    pub fn wants_write(&self) -> bool
        ensures { IsTrue result ↔ (self.now.pending ≢ []) }
    {
        !self.output().is_empty()
    }

    /// Says that this many bytes of the output were sent.
    pub fn sent(&mut self, count: usize)
        requires { count ≤ length self.old.pending }
        ensures { self.new ≡ after_sent self.old count }
    {
        self.taken += count;
    }

    /// Writes all of the output, if there is any. Where that fails, a front part of it was written.
    pub fn write_out<W: Write>(&mut self, writer: &mut W) -> Result<(), WriteFailed>
        ensures ok { OnOk result
            (Appends (W.contents writer.old) (W.contents writer.new) self.old.pending) }
        ensures taken { OnOk result (self.new ≡ after_sent self.old (length self.old.pending)) }
        ensures err { OnErr result
            (AppendsPart (W.contents writer.old) (W.contents writer.new) self.old.pending) }
        ensures due { OnErr result (self.old.pending ≢ []) }
        ensures kept { OnErr result (self.new ≡ self.old) }
    {
        if !self.wants_write() {
            return Ok(());
        }
        let output = self.output();
        let count = output.len();
        write_text(writer, output)?;
        self.sent(count);
        Ok(())
    }

    /// What became of the connection, where it ended so.
    pub fn served(&self, end: ConnectionEnd) -> ServingOutcome
        ensures { result ≡ record { frames = self.now.frames; end = end } }
    {
        ServingOutcome {
            frames: self.frames,
            end,
        }
    }

    /// The end, where it came: by a frame, of which the answer may still have to be sent, by the
    /// 64th frame, by a fault of the stream, or for want of memory. How reading and writing ended
    /// is the caller's to say.
    pub fn end(&self) -> Option<ConnectionEnd>
        ensures { result ≡ self.now.end }
    {
        self.end
    }

    /// Whether nothing is to be done any more: it ended, and all was sent.
    pub fn is_done(&self) -> bool
        ensures { IsTrue result ↔ ((self.now.end ≢ None) × (self.now.pending ≡ [])) }
    {
        match self.end {
            Some(_) => self.output().is_empty(),
            None => false,
        }
    }
}
