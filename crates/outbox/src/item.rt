//! What is to be entered.

use acceptor::entry::Entry;

/// What is to be entered: an entry, as it is in the journal, and when it was taken.
#[derive(Drop)]
pub struct Item {
    pub entry: Entry,
    /// When it was taken, in milliseconds; or when the program was started after that.
    pub since: u64,
}

/// What came of an entry that was given to the outbox.
#[derive(Clone, Copy, Debug, PartialEq, Eq)]
pub enum QueueOutcome {
    /// It is queued, after all others. Its line is to be put into the journal.
    New,
    /// Its id is known, with this text. Nothing has changed.
    Same,
    /// Its id is known, with another text. Nothing has changed.
    Other,
    /// Its text has the end of a line in it, as no command's has. Nothing has changed.
    Unfit,
    /// 65,536 items are known, as many as a log has entries. Nothing has changed.
    Full,
}
