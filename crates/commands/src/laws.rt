//! Laws of what a list of entries comes to.

ghost use Rattle.commands.specs.{EditionLaws.AnswersAsEarlier, History.SeesEachId};
ghost use Rattle.commands.specs.MendingLaws.{ClosesAsBefore, RenamesAlone};
ghost use Rattle.commands.specs.OpeningLaws.{FirstOpeningHolds, CancelsAsBefore};

/// A law: the ids that are seen after a list of entries are the ids of its entries, those of
/// refused ones included.
pub fn every_id_is_seen()
    ensures { SeesEachId }
{}

/// A law: a later edition changes no answer before it is set. For every number of editions, a list
/// that sets none of the further ones is answered by a program that knows more editions as by one
/// that knows these alone.
pub fn later_editions_change_no_answer()
    ensures { AnswersAsEarlier }
{}

/// A law: a closed round that is opened again, and then closed with nothing between, is what it was
/// before, and so is each other round.
pub fn closes_as_before()
    ensures { ClosesAsBefore }
{}

/// A law: another name for a competitor changes no round, so nobody's place.
pub fn renames_alone()
    ensures { RenamesAlone }
{}

/// A law: where no command takes a round back, the round is as its first opening opened it, with
/// all commands since.
pub fn first_opening_holds()
    ensures { FirstOpeningHolds }
{}

/// A law: if a round is opened and that is taken back, with nothing between, each round is as it
/// was before it was opened.
pub fn cancels_as_before()
    ensures { CancelsAsBefore }
{}
