//! What the code of a refused command means, in a few words.

ghost use Rattle.std.specs.Prelude.{◌≡◌};
ghost use Rattle.texts.specs.meanings.Meanings.{meaning_of};

use crate::Code;

/// What a code means, in a few words for people, as the table of codes in docs/FORMATS.md has them.
pub fn meaning_of(code: Code) -> &'static str
    ensures { result.now ≡ meaning_of code }
{
    match code {
        Code::Unread => "not a command of this edition",
        Code::Repeat => "this id was entered before",
        Code::UnknownCompetitor => "nobody is registered under this number",
        Code::NameTaken => "another number has this name",
        Code::RoundUnknown => "the round is not opened, or the one before it is not closed",
        Code::RoundOpen => "the round was opened before, or the next one is open",
        Code::RoundsRule => "too few competitors for the rounds that would follow",
        Code::FormatNotAllowed => "the event does not have this format",
        Code::CutoffNotAllowed => "the event or the format does not allow this cutoff",
        Code::LimitNotAllowed => "a timed event needs a time limit, any other has none",
        Code::NoScramble => "the attempt has no scramble yet",
        Code::ScrambleThere => "the attempt has its scramble already",
        Code::WrongOutcome => "the event does not accept such a result",
        Code::Closed => "the round is closed",
        Code::Already => "it is there already",
        Code::Full => "the round has 999 entrants",
        Code::NotEntered => "the competitor is not in this round",
        Code::OutOfOrder => "the attempt is not the next one",
        Code::NoMoreAttempts => "this competitor has no attempt left",
        Code::NoSuchAttempt => "there is no such attempt",
        Code::CutoffLost => "the cutoff would be missed, and attempts after it are done",
        Code::Unfinished => "somebody still has attempts to do",
        Code::HasAttempts => "an attempt is entered already",
        Code::NotClosed => "the round is not closed",
        Code::Changed => "the attempts have changed since the card was written",
    }
}
