//! What the laws say of accepted commands they say of every log.

ghost use Rattle.card_laws.specs.Accepting.{LogsAreAccepted};

/// A law: of the commands that the entries of a log come to, each is accepted after those in front
/// of it, for a program that knows any number of editions.
#[tactic(auto, using(crate::proofs::Accepted::logs_are_accepted))]
pub fn logs_are_accepted()
    ensures { LogsAreAccepted }
{}
