//! What holds of an outbox, whatever is done and whatever comes.

ghost use Rattle.outbox.specs.Cards.{SavedCardIsOverWhatWasSeen, SavedFixIsOverWhatWasSeen};
ghost use Rattle.outbox.specs.{Cards.SavedIsEntered, Laws.NothingTakenIsLost, WorkedRuns.WorkedRun};
ghost use Rattle.outbox.specs.Laws.{CountsOnce, Fixed, NamesOneHall, NeverByGuess, OfThisHallAlone};
ghost use Rattle.outbox.specs.{Laws.PassesOverByTheLog, Worked.WorkedJournal, Worked.WorkedStates};
ghost use Rattle.outbox.specs.Laws.{ReadsAfterCrash, StaysInTheJournal, ToldAtOnce, ToldForGood};

use commands::every_id_is_seen;

/// A law: what is said of an item is so in every log of the hall that begins with what the mirror
/// holds. Saved: the entry at that position is its id and its text, and was answered Done. Changed
/// or Refused: it is that entry, and was answered so. Where the log has an entry of its id, one of
/// these is said, and it stays as it was said.
pub fn told_by_the_log()
    ensures never_by_guess { NeverByGuess }
    ensures at_once { ToldAtOnce }
    ensures for_good { ToldForGood }
{}

/// A law: a command that is reported saved was accepted at that position, in every log of the hall
/// that begins with what the mirror holds. Where it is a card, just in front of it the entrant had
/// the values that the confirmed page showed.
pub fn saved_is_entered()
    ensures entered { SavedIsEntered }
    ensures card { SavedCardIsOverWhatWasSeen }
    ensures fix { SavedFixIsOverWhatWasSeen }
{}

/// A law: of all entries of an id in any log one at most is accepted, so an item that is submitted
/// again and again counts once.
pub fn counts_once()
    ensures { CountsOnce }
{
    every_id_is_seen();
}

/// A law: whatever calls were made, whatever bytes came, and however often the program was started
/// again after a crash, what is to be written to a desk is nothing but the end of a Submit, for
/// this hall, of an entry whose line is in the journal: its id and its text, byte for byte. Of an
/// id the journal has one such line at most.
pub fn submits_what_is_kept()
    ensures { Fixed }
{}

/// A law: an item that is in the journal is passed over where the log has an entry of its id, as
/// far as it was looked through since the program was started, or where a scoretaker has answered
/// the item. Each other one is submitted when its turn comes.
pub fn passes_over_by_the_log()
    ensures { PassesOverByTheLog }
{}

/// A law: the first line of a journal names one hall. So what is read as the journal of a hall is
/// read as that of no other.
pub fn names_one_hall()
    ensures line { NamesOneHall }
    ensures journal { OfThisHallAlone }
{}

/// A law: each entry of which it may be answered that it is taken, since its line was kept, is in
/// the list, whatever calls were made, and after a crash at any moment, at whatever byte the file
/// was cut. An item that is in the journal stays there, also one that was there when the program
/// was started. What a crash leaves of the file is read.
pub fn loses_nothing()
    ensures listed { NothingTakenIsLost }
    ensures stays { StaysInTheJournal }
    ensures reads { ReadsAfterCrash }
{}

/// A journal that was read by hand, and what a log says of entries: no code of this crate is part
/// of these values.
pub fn worked()
    ensures journal { WorkedJournal }
    ensures states { WorkedStates }
{}

/// A run that was worked by hand, which meets what the laws ask of a history: a command is taken,
/// kept and submitted; the program ends while a second one's line is written; it is started again,
/// and passes over the first, which is in the log.
pub fn worked_run()
    ensures { WorkedRun }
{}
