//! Laws of cards over nothing: the attempts of the same outcomes come to the same.

ghost use Rattle.card_laws.specs.OverNothing.{CardIsAttempts, CardPrintsAsAttempts};
ghost use Rattle.card_laws.specs.OverNothing.{CardIsAcceptedAsAttempts, CardIsRefusedAsAttempts};

/// A law: where nothing counts of a number in a round, a card of outcomes makes of every round what
/// the attempts of these outcomes make of it, one after the other.
#[tactic(auto, using(crate::proofs::Outcomes::card_is_attempts))]
pub fn card_is_attempts()
    ensures { CardIsAttempts }
{}

/// A law: where nothing counts of a number in a round, every sheet is the same after a card of
/// outcomes as after the attempts of these outcomes, byte for byte and in both forms, at the same
/// position.
#[tactic(auto, using(crate::proofs::Printed::card_prints_as_attempts))]
pub fn card_prints_as_attempts()
    ensures { CardPrintsAsAttempts }
{}

/// A law: where nothing counts of a number in a round, a card of one outcome at least is accepted
/// exactly where the attempts of its outcomes are, one after the other.
#[tactic(auto, using(crate::proofs::Refusals::card_is_accepted_as_attempts))]
pub fn card_is_accepted_as_attempts()
    ensures { CardIsAcceptedAsAttempts }
{}

/// A law: where nothing counts of a number in a round, and the event allows each outcome of a card,
/// under a scramble where it is a solution, the card is answered as the first of its attempts that
/// is refused, if one is. Where the event does not allow each, the codes may differ.
#[tactic(auto, using(crate::proofs::Refusals::card_is_refused_as_attempts))]
pub fn card_is_refused_as_attempts()
    ensures { CardIsRefusedAsAttempts }
{}
