//! Laws of the two sides of a connection, for all bytes and keys.

ghost use Rattle.sealed.specs.Laws.{HolderIsAdmitted, SealsOn, StandsAdmits, StandsOpens};
ghost use Rattle.sealed.specs.Sent.{SealingGoesOn, SealingReads, SendsWhatIsGiven};

/// Of whatever came to a desk's side in pieces, what was handed on, and who calls, are as the
/// desk's keys have it: a law. So where the caller is a holder of the hall's key, all that was
/// handed on is in records that fit under this key.
#[tactic(auto, using(crate::proofs::Admitted::admits))]
pub fn stands_admits()
    ensures { StandsAdmits }
{}

/// A law: of whatever came to the caller's side, what was handed on is in records that fit under
/// its key.
pub fn stands_opens()
    ensures { StandsOpens }
{}

/// A law: a holder of the hall's key, who seals with it, is let in with all that was sealed.
#[tactic(auto, using(crate::proofs::Lawful::holder_is))]
pub fn holder_is_admitted()
    ensures { HolderIsAdmitted }
{}

/// Bytes that are sealed one after the other are sealed as the whole of them: a law.
#[tactic(auto, using(crate::proofs::Lawful::seals_on))]
pub fn seals_on()
    ensures { SealsOn }
{}

/// What a desk's side has read and handed on is not changed by what it sends: a law.
#[tactic(auto, using(crate::proofs::Sending::sealing_reads))]
pub fn sealing_reads()
    ensures { SealingReads }
{}

/// What a desk's side sends goes on with what it sent before, where somebody is let in: a law.
#[tactic(auto, using(crate::proofs::Sending::sealing_goes_on))]
pub fn sealing_goes_on()
    ensures { SealingGoesOn }
{}

/// A desk's side sends nothing but what it is given: the bytes themselves to a caller who is let in
/// without a key, and to a holder of one records of them under its key, numbered from 0: a law.
#[tactic(auto, using(crate::proofs::Sending::sends_what_is_given))]
pub fn sends_what_is_given()
    ensures { SendsWhatIsGiven }
{}
