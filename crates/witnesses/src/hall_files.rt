//! A hall's file.

ghost use Rattle.witnesses.specs.HallFiles.{WorksHallFile};

/// What a hall's file says, worked out by hand: the hall's number, the addresses of three desks,
/// and where its key is; and one that names no desks is refused for that.
#[tactic(auto, using(crate::proofs::Halls::works))]
pub fn a_hall_is_said()
    ensures { WorksHallFile }
{}
