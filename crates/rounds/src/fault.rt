//! Why a table refuses.

/// Why a competitor was not entered.
#[derive(Clone, Copy, Debug, PartialEq, Eq)]
pub enum EnterFault {
    /// The round is closed.
    Closed,
    /// The competitor is entered already.
    Already,
    /// There are as many entrants as a round may have, `formats::MOST_ENTRANTS`.
    Full,
    /// There is no memory for one more entrant.
    NoMemory,
}

/// Why an attempt was not put in.
#[derive(Clone, Copy, Debug, PartialEq, Eq)]
pub enum PutFault {
    /// The round is closed.
    Closed,
    /// The competitor is not entered.
    NotEntered,
    /// It is not the attempt after those that are done.
    OutOfOrder,
    /// All allotted attempts are done.
    NoMoreAttempts,
}

/// Why an attempt was not corrected.
#[derive(Clone, Copy, Debug, PartialEq, Eq)]
pub enum CorrectFault {
    /// The round is closed.
    Closed,
    /// The competitor is not entered.
    NotEntered,
    /// The attempt is not done.
    NoSuchAttempt,
    /// More attempts count than the cutoff's, and the cutoff would no longer be met.
    CutoffLost,
}

/// Why an entrant did not get other values.
#[derive(Clone, Copy, Debug, PartialEq, Eq)]
pub enum SetFault {
    /// The round is closed.
    Closed,
    /// The competitor is not entered.
    NotEntered,
    /// There are more values than they allot.
    NoMoreAttempts,
}

/// Why the last attempt was not removed.
#[derive(Clone, Copy, Debug, PartialEq, Eq)]
pub enum StrikeFault {
    /// The round is closed.
    Closed,
    /// The competitor is not entered.
    NotEntered,
    /// No attempt is done.
    NoSuchAttempt,
}

/// Why a round was not closed.
#[derive(Clone, Copy, Debug, PartialEq, Eq)]
pub enum CloseFault {
    /// The round is closed already.
    Closed,
    /// An entrant has not done all allotted attempts.
    Unfinished,
}

/// Why an entrant did not leave the round.
#[derive(Clone, Copy, Debug, PartialEq, Eq)]
pub enum WithdrawFault {
    /// The round is closed.
    Closed,
    /// The competitor is not entered.
    NotEntered,
    /// The entrant has done an attempt.
    HasAttempts,
    /// There is no memory for the one who takes the place.
    NoMemory,
}

/// Why the format and the cutoff of a round stay.
#[derive(Clone, Copy, Debug, PartialEq, Eq)]
pub enum RulesFault {
    /// The round is closed.
    Closed,
    /// An entrant has done an attempt.
    HasAttempts,
}

/// Why a round was not opened again.
#[derive(Clone, Copy, Debug, PartialEq, Eq)]
pub enum ReopenFault {
    /// The round is not closed.
    NotClosed,
}

/// Why an entrant of a closed round did not get other values.
#[derive(Clone, Copy, Debug, PartialEq, Eq)]
pub enum FixFault {
    /// The round is not closed.
    NotClosed,
    /// The competitor is not entered.
    NotEntered,
    /// There are more values than they allot.
    NoMoreAttempts,
    /// There are fewer values than they allot.
    Unfinished,
}
