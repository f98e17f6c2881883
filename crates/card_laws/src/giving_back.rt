//! Laws of cards over what no longer counts.

ghost use Rattle.card_laws.specs.GivingBack.{AcceptedOnlyWhereGivenBack, FixedOnlyWhereGivenBack};
ghost use Rattle.card_laws.specs.GivingBack.{SecondOnlyWhereGivenBack};

/// A law: if other values count than a card says, the card is accepted later only if a command
/// between gave back the values that it says. That command names the entrant, if the entrant was in
/// the round then.
#[tactic(auto, using(crate::proofs::Returning::accepted_only_where_given_back))]
pub fn accepted_only_where_given_back()
    ensures { AcceptedOnlyWhereGivenBack }
{}

/// A law: the same of a card in a closed round.
#[tactic(auto, using(crate::proofs::Returning::fixed_only_where_given_back))]
pub fn fixed_only_where_given_back()
    ensures { FixedOnlyWhereGivenBack }
{}

/// A law: of two accepted cards of one entrant that say that the same counts, the first of which
/// changes it, the second comes after an accepted command that gave back what both say.
pub fn second_only_where_given_back()
    ensures { SecondOnlyWhereGivenBack }
{}
