//! Commands: what a text of the list asks for.

ghost use Rattle.std.specs.Prelude.{◌≡◌};

use attempts::Value;
use cube::notation::Moves;
use formats::{Advance, Event, Format};
use std::marker::Model;

/// A competitor's name, as bytes of text.
#[derive(Drop)]
pub struct Name {
    bytes: Vec<u8>,
}

impl Model for Name {
    ghost use Rattle.std.specs.Prelude.{List, ℕ};

    ghost Value = { List ℕ };

    ghost view = { λ name. name.bytes.items };
}

impl Name {
    /// A name of these bytes, without taking memory. Whether they are a name that a command may
    /// give is for its reader to say.
    pub fn new(bytes: Vec<u8>) -> Self
        ensures { result ≡ bytes.items }
    {
        Name { bytes }
    }

    /// The bytes, given back without taking memory.
    pub fn into_vec(self) -> Vec<u8>
        ensures { result.items ≡ self }
    {
        let Name { bytes } = self;
        bytes
    }

    /// The bytes of the name.
    pub fn as_bytes(&self) -> &[u8]
        ensures { result.now ≡ self.now }
    {
        &self.bytes
    }
}

/// How a round is run.
#[derive(Clone, Copy)]
pub struct Settings {
    /// How many attempts there are, and what counts of them.
    pub format: Format,
    /// The number of attempts (1 to 4) after which only those go on who have one below the second
    /// number (1 to 360,000): of hundredths of a second, or of moves in fewest moves.
    pub cutoff: Option<(u8, u32)>,
    /// The hundredths of a second (1 to 360,000) at which an attempt is too long.
    pub limit: Option<u32>,
    /// Who advances to the next round.
    pub advance: Advance,
}

/// What a judge enters for an attempt.
#[derive(Drop)]
pub enum Entered {
    /// `T:`: a measured time of 1 to 999,999 hundredths of a second, and 0 to 9 penalties.
    Time {
        hundredths: u32,
        penalties: u8,
    },
    /// `S:`: a solution for the scramble of its attempt, as many moves as its text of at most 600
    /// bytes holds.
    Solution {
        moves: Moves,
    },
    /// `M:`: in `333mbf`, 0 to `attempted` cubes solved of 2 to 99, in 1 to 5,999 seconds.
    Multi {
        solved: u8,
        attempted: u8,
        seconds: u16,
    },
    /// `DNF`: did not finish.
    Dnf,
    /// `DNS`: did not start.
    Dns,
}

/// A round of an event.
#[derive(Clone, Copy, Debug, PartialEq, Eq)]
pub struct RoundId {
    pub event: Event,
    /// 1 to 4.
    pub round: u8,
}

/// What a judge enters for an attempt of a competitor in a round.
#[derive(Drop)]
pub struct AttemptEntry {
    pub id: RoundId,
    /// 1 to 5.
    pub attempt: u8,
    /// The competitor's number, 1 to 9,999.
    pub number: u16,
    pub outcome: Entered,
}

/// What the attempts of a competitor count, in order: at most five values.
#[derive(Drop)]
pub struct SeenValues {
    values: Vec<Value>,
}

impl Model for SeenValues {
    ghost use Rattle.std.specs.Prelude.{List};
    ghost use Rattle.attempts.specs.declared.Value.{Value as Counted};

    ghost Value = { List Counted };

    ghost view = { λ was. was.values.items };
}

impl SeenValues {
    /// These values, without taking memory.
    pub fn new(values: Vec<Value>) -> Self
        ensures { result ≡ values.items }
    {
        SeenValues { values }
    }

    /// The values, in order.
    pub fn as_slice(&self) -> &[Value]
        ensures { result.now ≡ self.now }
    {
        &self.values
    }
}

/// The attempts that are to count, in order: at most five, each what a judge enters, or nothing
/// where it stays as it is.
#[derive(Drop)]
pub struct NewAttempts {
    outcomes: Vec<Option<Entered>>,
}

impl Model for NewAttempts {
    ghost use Rattle.std.specs.Prelude.{List, Option};
    ghost use Rattle.texts.specs.declared.command.Entered.{Entered as Outcome};

    ghost Value = { List (Option Outcome) };

    ghost view = { λ now. now.outcomes.items };
}

impl NewAttempts {
    /// These attempts, without taking memory.
    pub fn new(outcomes: Vec<Option<Entered>>) -> Self
        ensures { result ≡ outcomes.items }
    {
        NewAttempts { outcomes }
    }

    /// The attempts, in order.
    pub fn as_slice(&self) -> &[Option<Entered>]
        ensures { result.now ≡ self.now }
    {
        &self.outcomes
    }
}

/// A scorecard: what its writer saw of the attempts of a competitor in a round, and the attempts
/// that are to count.
#[derive(Drop)]
pub struct CardEntry {
    pub id: RoundId,
    /// The competitor's number, 1 to 9,999.
    pub number: u16,
    pub was: SeenValues,
    /// At an attempt that `was` does not have, something is entered.
    pub now: NewAttempts,
}

/// What a text of the list asks for. Competitors' numbers are 1 to 9,999, rounds 1 to 4, attempts 1
/// to 5.
#[derive(Drop)]
pub enum Command {
    /// `REG`: gives a competitor a number and a name.
    Register {
        number: u16,
        name: Name,
    },
    /// `OPEN`: opens a round of an event.
    Open {
        id: RoundId,
        settings: Settings,
    },
    /// `ENT`: enters a competitor for the first round of an event.
    Enter {
        event: Event,
        number: u16,
    },
    /// `SCR`: sets the scramble of an attempt of a round, as many moves as its text of at most 600
    /// bytes holds.
    Scramble {
        id: RoundId,
        attempt: u8,
        moves: Moves,
    },
    /// `ATT`: what a competitor did in the next attempt of a round.
    Attempt(AttemptEntry),
    /// `COR`: what a competitor did in an attempt of a round, in place of what was entered for it
    /// before.
    Correct(AttemptEntry),
    /// `STR`: strikes out a competitor's last attempt of a round.
    Strike {
        id: RoundId,
        number: u16,
    },
    /// `ADV`: changes who advances from a round.
    SetAdvance {
        id: RoundId,
        advance: Advance,
    },
    /// `CLOSE`: closes a round.
    Close {
        id: RoundId,
    },
    /// `EDITION`: the edition of the commands that holds from the next one on, 2 to 4.
    SetEdition {
        edition: u8,
    },
    /// `REN`: gives a competitor another name.
    Rename {
        number: u16,
        name: Name,
    },
    /// `SET`: sets how a round is run, in place of what was set when it was opened, but for who
    /// advances. The ranges are those of `Settings`.
    SetRound {
        id: RoundId,
        format: Format,
        cutoff: Option<(u8, u32)>,
        limit: Option<u32>,
    },
    /// `RSC`: sets the scramble of an attempt of a round, in place of the one that it has.
    Rescramble {
        id: RoundId,
        attempt: u8,
        moves: Moves,
    },
    /// `WDR`: takes a competitor out of a round.
    Withdraw {
        id: RoundId,
        number: u16,
    },
    /// `REOPEN`: opens a round again that was closed.
    Reopen {
        id: RoundId,
    },
    /// `CARD`: all attempts of a competitor in a round at once, where what counts is what the
    /// writer of the card saw.
    Card(CardEntry),
    /// `FIX`: the same in a closed round, which stays closed.
    Fix(CardEntry),
    /// `CANCEL`: takes back the opening of a round in which nobody has an attempt.
    Cancel {
        id: RoundId,
    },
}

/// A command, and the remark that is behind it: who entered it, when, why. A remark is shown and
/// not believed: nothing depends on it.
#[derive(Drop)]
pub struct RemarkedCommand {
    pub command: Command,
    /// 1 to 80 bytes; with `CARD`, `FIX`, `ATT`, `COR`, `STR` and `WDR` alone.
    pub remark: Option<Name>,
}
