//! Calls of a follower.

ghost use Rattle.witnesses.specs.Followed.{WorksFollower};

/// A hall of three desks is followed: the first desk is asked and answers, is asked again and is
/// silent, or reports another entry; the second one's log is behind. So `log_follower::laws` say
/// something.
#[tactic(auto, using(crate::proofs::Followed::works))]
pub fn a_hall_is_followed()
    ensures { WorksFollower }
{}
