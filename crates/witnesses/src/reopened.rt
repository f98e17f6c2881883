//! A round that is opened again.

ghost use Rattle.witnesses.specs.Reopened.{WorksReopening};

/// A closed round may be opened again. So `commands::closes_as_before` and
/// `edition_laws::sheets_as_before` say something.
#[tactic(auto, unfolding(commands::specs::Accepted::round_in))]
pub fn a_round_is_reopened()
    ensures { WorksReopening }
{}
