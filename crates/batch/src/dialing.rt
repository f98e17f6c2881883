//! Where connections to a desk come from.

ghost use Rattle.std.specs.Prelude.{◌∷◌, [], List, Option, IfOk, OnErr, OnOk};
ghost use Rattle.wire.specs.Ranges.{IsFrame};
ghost use Rattle.batch.specs.Dialing.{Came, Dialed, Dials, Ended, Failed, Opened, place_of};

use client::ClientFault;
use std::io;
use wire::Frame;

/// Where a desk is asked, how long it is waited for, and under which key.
#[derive(Clone, Copy)]
pub struct Contact<'a> {
    /// An IP address or a host's name, a colon, and a port.
    pub address: &'a str,
    /// Seconds from the beginning of a request to the last byte of its answer: of the first one
    /// over a connection, from before it is opened.
    pub patience: u32,
    /// The key of its hall under which it is asked, or none for a desk that asks for no key.
    pub key: Option<[u8; 32]>,
}

/// What is known of the end of a connection.
#[derive(Clone, Copy, Debug, PartialEq, Eq)]
pub enum ConnectionLoss {
    /// The desk was waited for as long as its contact says, and there is no answer.
    Late,
    /// The desk ended it, and no byte of the answer had come.
    Gone,
    /// It was asked under a key, and the desk asks for none.
    NoKey,
    /// The desk has another key than the one under which it was asked.
    OtherKey,
    /// It was asked without a key, and the desk asks for one.
    HasKey,
    /// None of these.
    Own,
}

/// One connection at a time to a desk, over which requests are made one after the other, each of
/// which is waited for.
pub trait Dial {
    /// What became of the connections, in order, where that is known.
    ghost dialed: { Self → Option (List Dialed) };

    /// Opens a connection for a request, under the contact's key. Where the desk doesn't speak
    /// under that key, nothing can be written, and the end of the connection tells why.
    fn dial(&mut self, contact: Contact<'_>) -> io::Result<()>
        ensures opened { OnOk result (Dials (dialed self.old) (dialed self.new)
            (Opened (place_of contact.entry) ∷ [])) }
        ensures failed { OnErr result (Dials (dialed self.old) (dialed self.new)
            (Failed (place_of contact.entry) ∷ [])) };

    /// Makes a request over the connection that was opened last, and gives the first frame that the
    /// desk sends after it, whichever it is. The desk is waited for as long as its contact says.
    ///
    /// # Errors
    ///
    /// - `Write` where the request can't be written, and so where the desk doesn't speak under the
    ///   contact's key.
    /// - `NoAnswer` where no frame comes: in time, before the connection ends or fails, or since
    ///   the bytes that come break the format of frames.
    /// - `NoMemory` where memory runs out.
    fn ask(&mut self, request: &Frame) -> Result<Frame, ClientFault>
        requires { IsFrame request.now }
        ensures told { Dials (dialed self.old) (dialed self.new) (Came request.now result ∷ []) }
        ensures frame { IfOk result IsFrame };

    /// Ends the connection, and gives what is known of its end.
    fn hang_up(&mut self) -> ConnectionLoss
        ensures { Dials (dialed self.old) (dialed self.new) (Ended result ∷ []) };

    /// Rests, before the same is asked once more, after this many tries, counted from 0.
    fn pause(&self, tries: u32);
}
