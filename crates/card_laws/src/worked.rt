//! Lists of commands that meet the premises of the laws, worked by hand.

ghost use Rattle.card_laws.specs.WorkedCards.{SetsEdition, WorksGivingBack, WorksOverNothing};
ghost use Rattle.card_laws.specs.WorkedCards.{WorksStanding, WorksTakenBack};
ghost use Rattle.card_laws.specs.WorkedSaving.{WorksSaved};

/// Of two in a round nothing counts: a card of five outcomes is accepted, as its attempts are, and
/// one of three that miss the cutoff is refused, as the third of them is. In a closed round the
/// codes differ, where the event does not allow an outcome.
pub fn works_over_nothing()
    ensures { WorksOverNothing }
{}

/// A card and commands after it that do not name its entrant are accepted, in an open round and in
/// a closed one. Once a card with one attempt is entered, the round can't be cancelled.
pub fn works_standing()
    ensures { WorksStanding }
{}

/// Of two cards over the same the second is refused, and accepted where the first was taken back;
/// so in a closed round.
#[tactic(auto, unfolding(commands::specs::Accepted::round_in))]
pub fn works_giving_back()
    ensures { WorksGivingBack }
{}

/// A round is opened by mistake and taken back: it is not opened any more, and is as the opening
/// after that has it. Where nobody takes it back it is as its first opening has it.
#[tactic(auto, unfolding(commands::specs::Accepted::round_in))]
pub fn works_taken_back()
    ensures { WorksTakenBack }
{}

/// After its text, edition 4 holds.
#[tactic(auto, using(crate::proofs::Remarks::sets_edition))]
pub fn sets_edition()
    ensures { SetsEdition }
{}

/// Of two cards over the same in a hall's log the first is reported saved, and the second that its
/// attempts were changed meanwhile.
pub fn works_saved()
    ensures { WorksSaved }
{}
