//! What follows of a link's calls, whatever calls are made.

ghost use Rattle.links.specs.{Histories.FramesAreKept, Tellings.LinesAreFew};
ghost use Rattle.links.specs.Reaching.{LinksTryAgain};

/// However a link is called, each frame that was pushed was sent whole, once, on one connection, or
/// was dropped for a cause, or waits. What was written on a connection are the frames sent on it,
/// at most 63, in the order of their pushes, and then at most the front part of one more, pushed
/// later, which was dropped because the connection failed, or is being sent. At most 256 frames
/// wait.
///
/// A frame is dropped for a full queue or for want of memory only where a push says so, and because
/// a connection failed only once that was said.
///
/// `Steps` of `specs/Histories` says of each call what its contract says.
pub fn frames_are_kept()
    ensures { FramesAreKept }
{}

/// Where a frame waits, a connection is to be opened a second after a failure at the latest, and
/// one that isn't open a second later is given up. So a desk that comes back is reached within two
/// seconds, where something is to be said to it.
pub fn links_try_again()
    ensures { LinksTryAgain }
{}

/// However notices are called, the lines that are due are a second apart or more; that the desk
/// can't be reached is said once, and that it was reached again only after that.
pub fn lines_are_few()
    ensures { LinesAreFew }
{}
