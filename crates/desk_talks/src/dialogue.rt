//! What wants a connection to a desk of a hall, and what is to be done for it.

ghost use Rattle.std.specs.Prelude.{◌≡◌, ℕ, List, false};
ghost use Rattle.desk_talks.specs.declared.dialogue.ConnectionPhase.{ConnectionPhase};
ghost use Rattle.desk_talks.specs.Dialogues.{Act, Call, Hear, Lost, Opened, Sent, has_changed};

/// What is to be done now.
#[derive(Clone, Copy, PartialEq, Eq, Debug)]
pub enum DialogueAction {
    /// Nothing, until something comes or some time is over.
    Rest,
    /// Open a connection to this desk, 1 to 5, in place of the one that there is, if there is one:
    /// call `opened` once it is open, or `lost`.
    Open { desk: u8 },
    /// Write the output: call `sent` with how many bytes were written.
    Write,
    /// Close the connection, or give up opening it. No call is to be made.
    Close,
    /// Close the connection, if there is one, and say loudly that the hall is broken: two of its
    /// desks reported different entries for one position.
    Stop,
}

/// What the connection of a dialogue has come to.
#[derive(Clone, Copy, PartialEq, Eq, Debug)]
pub enum ConnectionPhase {
    /// There is none.
    Closed,
    /// It is being opened.
    Opening,
    Open,
}

/// What came of bytes that a desk sent.
#[derive(Clone, Copy, PartialEq, Eq, Debug)]
pub enum ReceiveOutcome {
    /// No answer is whole yet, or there is no connection.
    Nothing,
    /// The desk answered. Where nothing changed, the dialogue holds what it held.
    Answer { changed: bool },
    /// It was no answer. The connection is to be closed; no further call is to be made for it.
    NoAnswer,
}

/// Code that talks with the desks of a hall over one connection at a time. Its caller asks it again
/// and again what is to be done (`act`), does it over a connection, and says what came of it.
///
/// What it holds is what it has of the desks' answers. What becomes of the connection changes
/// nothing of that.
pub trait Dialogue {
    /// What a dialogue can hold.
    ghost Held: { Type 0 };

    /// What it holds.
    ghost held: { Self → Held };

    /// What a call may lead to.
    ghost leads: { Call → Self → Self → Type 0 };

    /// What its connection has come to.
    ghost phase: { Self → ConnectionPhase };

    /// What is to be written.
    ghost output: { Self → List ℕ };

    /// What is to be done now, at this many milliseconds of a clock that doesn't go back. It counts
    /// as begun.
    fn act(&mut self, now: u64) -> DialogueAction
        ensures held { held self.new ≡ held self.old }
        ensures leads { leads (Act result now) self.old self.new };

    /// What its connection has come to.
    fn phase(&self) -> ConnectionPhase
        ensures { result ≡ phase self.now };

    /// Says that the connection that was being opened is open. Where the answer is false, it is to
    /// be closed, and counts as lost.
    fn opened(&mut self) -> bool
        ensures held { held self.new ≡ held self.old }
        ensures leads { leads (Opened result) self.old self.new };

    /// Says that the connection is lost: the desk `ended` it, or else it couldn't be opened, or it
    /// failed.
    fn lost(&mut self, ended: bool)
        ensures held { held self.new ≡ held self.old }
        ensures leads { leads (Lost ended) self.old self.new };

    /// What is to be written now.
    fn output(&self) -> &[u8]
        ensures { result.now ≡ output self.now };

    /// Says that this many bytes of the output were written.
    fn sent(&mut self, count: usize)
        ensures held { held self.new ≡ held self.old }
        ensures leads { leads (Sent count) self.old self.new };

    /// Takes bytes that came from the desk over the connection.
    fn hear(&mut self, now: u64, piece: &[u8]) -> ReceiveOutcome
        ensures held { has_changed result ≡ false → held self.new ≡ held self.old }
        ensures leads { leads (Hear result now piece.now) self.old self.new };
}
