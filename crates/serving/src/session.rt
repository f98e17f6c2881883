//! A desk that serves: what stays the same for as long as it does.

ghost use Rattle.std.specs.Prelude.{◌≤◌};
ghost use Rattle.learner.specs.Steps.{IsDesk};

use std::alloc::Global;
use store::home::Home;
use wire::Version;

/// What stays the same while a desk serves: where its memory comes from, which desk of which hall
/// it is, and how it speaks to the others.
#[derive(Clone, Copy)]
pub struct Session {
    pub alloc: Global,
    /// The hall, the desk's number in it, and the number of desks.
    pub home: Home,
    /// The version of the wire in which frames are pushed to desks.
    pub wire: Version,
    ghost few: { home.desks ≤ 5 },
    ghost ours: { IsDesk home.desks home.desk },
}
