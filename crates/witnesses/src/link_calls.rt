//! Calls of a link.

ghost use Rattle.witnesses.specs.LinkCalls.{WorksLink};

/// Two frames are pushed to a link, a connection is opened over which the first goes whole, and it
/// fails after a byte of the second; a third waits for the next one. Meanwhile it is said that the
/// desk can't be reached, and then that it was. So `links::laws` say something.
#[tactic(auto, using(crate::proofs::LinkCalls::works))]
pub fn a_link_is_called()
    ensures { WorksLink }
{}
