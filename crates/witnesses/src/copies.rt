//! Entries that are given to a mirror.

ghost use Rattle.witnesses.specs.Told.{WorksMirror};

/// A mirror is given entries of two logs, of which one begins the other: some, some that it has
/// with more, and some past its end. So `mirror::mirrors_hold_fronts` says something.
#[tactic(auto, using(crate::proofs::Told::works))]
pub fn mirrors_are_told()
    ensures { WorksMirror }
{}
