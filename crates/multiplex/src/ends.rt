//! How a client's connection ends, and how serving ends.

/// Why a client's connection is ended.
#[derive(Clone, Copy, PartialEq, Eq, Debug)]
pub enum EndReason {
    /// By serving: a Stop was answered, 64 frames were served, what is in the stream is no frame,
    /// the desk is down, or memory was refused. All that was to be sent was taken.
    Done,
    /// The client has sent all that it will send, and all of it is served and its answers taken.
    Ended,
    /// A read or a write failed, or the system refuses to tell when the client is ready.
    Broke,
    /// The client wasn't ready for as long as a client is waited for.
    Silent,
    /// Another client came, and there was no room: of the clients this one wasn't ready for the
    /// longest time.
    Crowded,
    /// Another client waited, and the system had no socket for it: of the clients this one wasn't
    /// ready for the longest time.
    NoSocket,
    /// Serving is over.
    Over,
}

/// Why serving is over.
#[derive(Clone, Copy, PartialEq, Eq, Debug)]
pub enum ServingEnd {
    /// As many clients as were asked for came, and the connection of each was ended.
    All,
    /// A client's Stop was served, and its connection ended.
    Stopped,
    /// The desk is down, and the connection that came to know of it ended, or a Tick of the desk's
    /// own was the first to know.
    Down,
    /// The system doesn't tell what is ready any more.
    Failed,
    /// 2^64 - 1 things were ready.
    Tired,
    /// Memory was refused before a client came.
    NoMemory,
}

/// What became of the clients.
#[derive(Clone, Copy, PartialEq, Eq, Debug)]
pub struct ServingsOutcome {
    /// How many clients came.
    pub connections: u64,
    pub over: ServingEnd,
    /// Whether memory was refused for a Tick of the desk's own. Of such a Tick a front part of the
    /// calls and pushes was made, and serving went on.
    pub starved: bool,
}
