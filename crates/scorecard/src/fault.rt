//! Why a text of a scorecard is not read.

use std::alloc::AllocError;
use thiserror::Error;

/// What is wrong with a text of a scorecard. Its text is a few words for the scoretaker.
#[derive(Clone, Copy, Debug, PartialEq, Eq, Error)]
pub enum ScorecardFault {
    /// There is nothing but spaces.
    #[error("nothing is written")]
    Empty,
    /// Something is neither a digit nor a mark of a time at its place, or digits are missing or too
    /// many.
    #[error("a time has digits, a point and a colon")]
    NotATime,
    /// There are minutes, and 60 or more seconds after them.
    #[error("seconds are below 60")]
    BadSeconds,
    /// A time is none, or above 999,999 hundredths of a second.
    #[error("a time is 0.01 to 166:39.99")]
    OutOfRange,
    /// After a plus is something else than what marks one to nine penalties.
    #[error("penalties are +2, +4 to +18")]
    BadPenalty,
    /// A slash, a space or a number is missing or misspelt.
    #[error("a result is like 11/13 58:20")]
    NotAResult,
    /// What is after the slash is no number of 2 to 99.
    #[error("2 to 99 cubes are attempted")]
    BadAttempted,
    /// More cubes are solved than attempted.
    #[error("more solved than the {attempted} attempted")]
    MoreSolved { attempted: u8 },
    /// The time of a result is none.
    #[error("a time is 0:01 to 99:59")]
    NoSeconds,
    /// The text is not the tokens of 1 to 400 moves.
    #[error("moves are like R U' F2 Rw x")]
    NotMoves,
    /// Memory ran out.
    #[error("no memory")]
    NoMemory,
}

impl From<AllocError> for ScorecardFault {
    ghost use Rattle.std.specs.Prelude.{◌≡◌};
    ghost use Rattle.scorecard.specs.declared.fault.ScorecardFault.TheVariants.{NoMemory};

    ghost from_gives = { λ _ fault. fault ≡ NoMemory };

    fn from(_: AllocError) -> ScorecardFault {
        ScorecardFault::NoMemory
    }
}
