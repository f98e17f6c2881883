//! What a connection has come to, what is to be done for it, and what became of a push.

/// What the connection to the other desk has come to. Times and lengths are milliseconds.
#[derive(Clone, Copy, PartialEq, Eq, Debug)]
pub enum LinkStage {
    /// There is none.
    Closed,
    /// There is none, and until this many milliseconds after this time none is opened.
    Paused { since: u64, millis: u64 },
    /// It is being opened since this time.
    Opening { since: u64 },
    /// It is open, this many frames were sent whole on it, and it was opened, or something was last
    /// sent on it, at this time.
    Open { frames: u32, quiet: u64 },
}

/// What is to be done for a link now.
#[derive(Clone, Copy, PartialEq, Eq, Debug)]
pub enum LinkAction {
    /// Nothing.
    Rest,
    /// Open a connection: call `began`, and then `opened` or `failed`.
    Open,
    /// Write the output: call `sent` for what was written.
    Write,
    /// Close the connection: call `closed`.
    Close,
    /// Close the connection, which wasn't opened in time: call `failed`.
    GiveUp,
}

/// What became of a frame that was pushed.
#[derive(Clone, Copy, PartialEq, Eq, Debug)]
pub enum PushOutcome {
    /// It waits.
    Waits,
    /// It waits, and for it the oldest frame of which nothing was sent yet was dropped: as many
    /// waited as may wait.
    DroppedOldest,
    /// It was dropped: memory was refused.
    NoMemory,
}
