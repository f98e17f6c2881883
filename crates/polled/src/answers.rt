//! What the sockets of others answer. Each of the others is a peer, with a number of its own.

/// What can be done next without waiting.
#[derive(Clone, Copy, PartialEq, Eq, Debug)]
pub enum Ready {
    /// Somebody may wait to be accepted.
    Waits,
    /// The peer with this number may have something to be read, may take bytes, or has gone.
    Peer { number: u64 },
    /// A round is over: each socket that was ready has been named. It is this many milliseconds
    /// after the first round.
    Round { now: u64 },
    /// The system doesn't tell what is ready any more.
    Failed,
}

/// What came of accepting a peer.
#[derive(Clone, Copy, PartialEq, Eq, Debug)]
pub enum AcceptedPeer {
    /// A peer came. These bytes are new with each peer: they tell its connection from others.
    Came { random: [u8; 16] },
    /// None waits, or the one that waited has gone.
    Nobody,
    /// The system has no more sockets.
    Full,
}

/// What came of a read.
#[derive(Clone, Copy, PartialEq, Eq, Debug)]
pub enum ReadOutcome {
    /// This many bytes were read, at least 1.
    Bytes { count: usize },
    /// There is nothing to be read now.
    Later,
    /// The peer has sent all that it will send.
    Ended,
    /// The read failed.
    Broke,
}

/// What came of a write.
#[derive(Clone, Copy, PartialEq, Eq, Debug)]
pub enum WriteOutcome {
    /// This many of the bytes were taken, at least 1.
    Bytes { count: usize },
    /// The peer can take nothing now.
    Later,
    /// The write failed.
    Broke,
}
