//! What a command is answered: done, or one of the 25 codes.

ghost use Rattle.std.specs.Prelude.{◌≡◌};
ghost use Rattle.texts.specs.Codes.{code_name, code_number, code_numbered};

/// Why a command was refused: the first of its checks that failed.
#[derive(Clone, Copy, Debug, PartialEq, Eq)]
pub enum Code {
    /// The text is not a command of this edition.
    Unread,
    /// The id was seen before, whatever its command was answered.
    Repeat,
    /// Nobody is registered under the number.
    UnknownCompetitor,
    /// Another number has the name.
    NameTaken,
    /// The round was not opened, or can't be opened yet.
    RoundUnknown,
    /// The round was opened before.
    RoundOpen,
    /// The number of competitors does not allow that many rounds.
    RoundsRule,
    /// The event does not have the format.
    FormatNotAllowed,
    /// The cutoff counts as many attempts as the format has, or more, or the event takes none.
    CutoffNotAllowed,
    /// A timed event lacks a time limit, or another event has one.
    LimitNotAllowed,
    /// The attempt has no scramble against which to check the solution.
    NoScramble,
    /// The attempt has a scramble already.
    ScrambleThere,
    /// The event does not take what was entered.
    WrongOutcome,
    /// The round was closed.
    Closed,
    /// The number is registered, or entered, already, or the edition holds.
    Already,
    /// The round has 999 entrants.
    Full,
    /// The competitor is not an entrant of the round.
    NotEntered,
    /// It is not the entrant's next attempt.
    OutOfOrder,
    /// The entrant has no attempt left.
    NoMoreAttempts,
    /// There is no such attempt.
    NoSuchAttempt,
    /// The cutoff would no longer be met, and attempts after it are done.
    CutoffLost,
    /// An entrant still has attempts to do.
    Unfinished,
    /// The attempt, or the entrant, or the round has an attempt already.
    HasAttempts,
    /// The round is not closed.
    NotClosed,
    /// Other attempts count than the writer of the card saw.
    Changed,
}

/// What a command was answered.
#[derive(Clone, Copy, Debug, PartialEq, Eq)]
pub enum Answer {
    /// The command was accepted.
    Done,
    /// The command was refused for this cause, and changed nothing but the ids seen.
    Refused(Code),
}

impl Code {
    /// All codes, in the order of their numbers.
    pub const ALL: [Code; 25] = [
        Code::Unread,
        Code::Repeat,
        Code::UnknownCompetitor,
        Code::NameTaken,
        Code::RoundUnknown,
        Code::RoundOpen,
        Code::RoundsRule,
        Code::FormatNotAllowed,
        Code::CutoffNotAllowed,
        Code::LimitNotAllowed,
        Code::NoScramble,
        Code::ScrambleThere,
        Code::WrongOutcome,
        Code::Closed,
        Code::Already,
        Code::Full,
        Code::NotEntered,
        Code::OutOfOrder,
        Code::NoMoreAttempts,
        Code::NoSuchAttempt,
        Code::CutoffLost,
        Code::Unfinished,
        Code::HasAttempts,
        Code::NotClosed,
        Code::Changed,
    ];

    /// The code of a number. None where no code has it.
    #[tactic(auto, unfolding(crate::specs::Codes::code_numbered))]
    pub fn from_number(number: u8) -> Option<Code>
        ensures { result ≡ code_numbered number }
    {
        Code::ALL
            .iter()
            .copied()
            .find(|code| code.number() == number)
    }

    /// The code's number, 1 to 25.
    pub fn number(self) -> u8
        ensures { result ≡ code_number self }
    {
        match self {
            Code::Unread => 1,
            Code::Repeat => 2,
            Code::UnknownCompetitor => 3,
            Code::NameTaken => 4,
            Code::RoundUnknown => 5,
            Code::RoundOpen => 6,
            Code::RoundsRule => 7,
            Code::FormatNotAllowed => 8,
            Code::CutoffNotAllowed => 9,
            Code::LimitNotAllowed => 10,
            Code::NoScramble => 11,
            Code::ScrambleThere => 12,
            Code::WrongOutcome => 13,
            Code::Closed => 14,
            Code::Already => 15,
            Code::Full => 16,
            Code::NotEntered => 17,
            Code::OutOfOrder => 18,
            Code::NoMoreAttempts => 19,
            Code::NoSuchAttempt => 20,
            Code::CutoffLost => 21,
            Code::Unfinished => 22,
            Code::HasAttempts => 23,
            Code::NotClosed => 24,
            Code::Changed => 25,
        }
    }

    /// The code's name, as programs write it.
    pub fn name(self) -> &'static str
        ensures { result.now ≡ code_name self }
    {
        match self {
            Code::Unread => "Unread",
            Code::Repeat => "Repeat",
            Code::UnknownCompetitor => "UnknownCompetitor",
            Code::NameTaken => "NameTaken",
            Code::RoundUnknown => "RoundUnknown",
            Code::RoundOpen => "RoundOpen",
            Code::RoundsRule => "RoundsRule",
            Code::FormatNotAllowed => "FormatNotAllowed",
            Code::CutoffNotAllowed => "CutoffNotAllowed",
            Code::LimitNotAllowed => "LimitNotAllowed",
            Code::NoScramble => "NoScramble",
            Code::ScrambleThere => "ScrambleThere",
            Code::WrongOutcome => "WrongOutcome",
            Code::Closed => "Closed",
            Code::Already => "Already",
            Code::Full => "Full",
            Code::NotEntered => "NotEntered",
            Code::OutOfOrder => "OutOfOrder",
            Code::NoMoreAttempts => "NoMoreAttempts",
            Code::NoSuchAttempt => "NoSuchAttempt",
            Code::CutoffLost => "CutoffLost",
            Code::Unfinished => "Unfinished",
            Code::HasAttempts => "HasAttempts",
            Code::NotClosed => "NotClosed",
            Code::Changed => "Changed",
        }
    }
}
