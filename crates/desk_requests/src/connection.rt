//! A connection to a desk.

ghost use Rattle.std.specs.Prelude.{◌≡◌, IfOk};
ghost use Rattle.std.specs.Io.{ReadsAtMost};
ghost use Rattle.sealed.specs.ends.ClientStreams.{own_key};
ghost use Rattle.wire.specs.Ranges.{IsFrame};

use crate::endings::{cut_ending, ending_at, trouble_ending};
use crate::waiting::Wait;
use batch::ConnectionLoss;
use client::{ClientFault, hear};
use lines::write_text;
use sealed::ends::ClientStream;
use std::alloc::Global;
use std::io;
use std::io::{Cursor, ErrorKind, Read, Write};
use std::net::{SocketAddr, TcpStream};
use wire::{Frame, FrameReader, encode};

/// This many reads bring a whole record, however few bytes each has.
const MOST_READS: u32 = 20_000;

/// How many bytes show whether a desk speaks under a key, and so how many reads bring them.
const PREFACE: u32 = 20;

/// A connection to a desk that is open. What is written to it goes to the desk, and what the desk
/// says is read from it, as the key of its hall asks for. Each read waits for what is left of the
/// wait, so that a desk that says a byte now and then holds a client no longer than a silent one.
#[derive(Drop)]
pub(crate) struct OpenConnection<'a> {
    alloc: Global,
    stream: TcpStream,
    /// Where the desk is.
    pub(crate) to: SocketAddr,
    pub(crate) wait: Wait<'a>,
    /// The caller's end of the connection.
    pub(crate) call: ClientStream,
    /// What was said and is not read.
    said: Cursor<Vec<u8>>,
    /// Whether a request was made over it.
    is_asked: bool,
    /// Whether a byte has come since the last request began.
    heard: bool,
    /// What is known of the connection's end.
    pub(crate) ending: ConnectionLoss,
}

impl<'a> OpenConnection<'a> {
    /// What goes over this stream to a desk and comes from it, from the first request on.
    pub(crate) fn new(
        alloc: Global,
        stream: TcpStream,
        to: SocketAddr,
        wait: Wait<'a>,
        call: ClientStream,
    ) -> OpenConnection<'a>
        ensures { result.call ≡ call }
    {
        OpenConnection {
            alloc,
            stream,
            to,
            wait,
            call,
            said: Cursor::new(Vec::new(alloc)),
            is_asked: false,
            heard: false,
            ending: ConnectionLoss::Own,
        }
    }

    /// Sends what waits to be sent.
    fn send(&mut self) -> io::Result<()>
        ensures { own_key self.new.call ≡ own_key self.old.call }
    {
        self.stream.write_all(self.call.output())?;
        let count = self.call.output().len();
        self.call.sent(count);
        Ok(())
    }

    /// Reads once from the stream, within what is left of the wait.
    fn read_in_time(&mut self, piece: &mut [u8]) -> io::Result<usize>
        ensures count { ReadsAtMost result piece.new }
        ensures call { self.new.call ≡ self.old.call }
    {
        let left = self.wait.left()?;
        self.stream.set_read_timeout(Some(left))?;
        self.stream.read(piece)
    }

    /// Reads once from the stream, and at its end, or where the read fails, notes how the
    /// connection ends.
    fn take(&mut self, piece: &mut [u8]) -> io::Result<usize>
        ensures count { ReadsAtMost result piece.new }
        ensures call { self.new.call ≡ self.old.call }
    {
        match self.read_in_time(piece) {
            Ok(0) => {
                self.ending = cut_ending(self.call.trouble_at_end(), self.heard);
                Ok(0)
            }
            Ok(count) => {
                self.heard = true;
                Ok(count)
            }
            Err(error) => {
                self.ending = ending_at(error.kind(), self.heard);
                Err(error)
            }
        }
    }

    /// Whether nothing more is said, since the keys of the two sides do not fit. How the connection
    /// ends is noted then.
    fn is_over(&mut self) -> bool
        ensures { self.new.call ≡ self.old.call }
    {
        match self.call.trouble() {
            Some(trouble) => {
                self.ending = trouble_ending(trouble);
                true
            }
            None => false,
        }
    }

    /// Begins the connection under its key, if it has one: sends the client's preface and waits for
    /// the desk's. Where none comes, nothing can be written, and how the connection ends is noted.
    pub(crate) fn open(&mut self) -> io::Result<()>
        ensures { own_key self.new.call ≡ own_key self.old.call }
    {
        if self.call.is_open() {
            return Ok(());
        }
        self.send()?;
        let mut piece = [0; 20];
        for _read in 0..PREFACE {
            if self.call.is_open() || self.is_over() {
                return Ok(());
            }
            let count = self.take(&mut piece)?;
            if count == 0 {
                return Ok(());
            }
            let _said = self.call.receive(&piece[..count])?;
        }
        Ok(())
    }

    /// Waits until the desk has said something more, or will say nothing more.
    fn listen(&mut self) -> io::Result<()> {
        let mut piece = [0; 4096];
        for _read in 0..MOST_READS {
            if self.is_over() {
                return Ok(());
            }
            let count = self.take(&mut piece)?;
            if count == 0 {
                return Ok(());
            }
            let said = self.call.receive(&piece[..count])?;
            if !said.is_empty() {
                self.said = Cursor::new(said);
                return Ok(());
            }
        }
        Ok(())
    }

    /// Begins a request. From the second one on the desk is waited for anew.
    fn begin(&mut self) {
        if self.is_asked {
            self.heard = false;
            self.wait.restart();
        }
        self.is_asked = true;
    }

    /// Makes a request, and gives the first frame that the desk says after it.
    pub(crate) fn ask(&mut self, request: &Frame) -> Result<Frame, ClientFault>
        requires { IsFrame request.now }
        ensures { IfOk result IsFrame }
    {
        let Ok(mut frames) = FrameReader::new(self.alloc) else {
            return Err(ClientFault::NoMemory);
        };
        let Ok(bytes) = encode(self.alloc, request) else {
            return Err(ClientFault::NoMemory);
        };
        self.begin();
        let Ok(()) = write_text(self, &bytes) else {
            return Err(ClientFault::Write);
        };
        hear(self, &mut frames)
    }
}

impl Read for OpenConnection<'_> {
    fn read(&mut self, buf: &mut [u8]) -> io::Result<usize> {
        let count = self.said.read(buf)?;
        if count > 0 {
            return Ok(count);
        }
        self.listen()?;
        self.said.read(buf)
    }
}

impl Write for OpenConnection<'_> {
    fn write(&mut self, buf: &[u8]) -> io::Result<usize> {
        match self.call.give(buf) {
            // the desk does not speak under this key
            Ok(0) if !buf.is_empty() => Err(io::Error::from(ErrorKind::NotConnected)),
            Ok(count) => {
                self.send()?;
                Ok(count)
            }
            Err(_) => Err(io::Error::from(ErrorKind::OutOfMemory)),
        }
    }

    fn flush(&mut self) -> io::Result<()> {
        Ok(())
    }
}
