//! Links that have something to send, and full ones.

ghost use Rattle.desk_laws.specs.FullLinks.{WorksFullLinks};

/// A link that has something to send wants to write it. Where as many frames wait as may wait, one
/// that is pushed takes the place of the oldest of which nothing was sent: worked by hand.
pub fn links_write_and_lose()
    ensures { WorksFullLinks }
{}
