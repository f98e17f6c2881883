//! Laws of how long attempts count.

ghost use Rattle.card_laws.specs.Holding.{CardStands, FixStands, HoldsUntilNamed};

/// A law: what a round holds of an entrant, it holds until a command names that one there, or takes
/// back that the round was opened.
#[tactic(auto, using(crate::proofs::Staying::holds_until_named))]
pub fn holds_until_named()
    ensures { HoldsUntilNamed }
{}

/// A law: after a card that is accepted the values of the entrant are those that the card leaves,
/// until another accepted command names the entrant in this round; where it leaves none, the round
/// may be cancelled too.
#[tactic(auto, using(crate::proofs::Taking::card_stands))]
pub fn card_stands()
    ensures { CardStands }
{}

/// A law: the same of a card in a closed round.
#[tactic(auto, using(crate::proofs::Taking::fix_stands))]
pub fn fix_stands()
    ensures { FixStands }
{}
