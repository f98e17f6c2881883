//! What follows of the turns of many connections, in any order.

ghost use Rattle.connections.specs.Connections.{EachIsServed, SilenceChangesNothing};

use answers::Desk;

/// In whatever order the turns of a desk's connections come, however their pieces are cut and their
/// answers taken: the frames that were begun are served one after the other, each by the node as
/// the one before it left the node, and the calls of all lead from the node before the first turn
/// to the node after the last. What each connection is handed, and what is pending for it, are the
/// answers to its own frames, in order, and these frames are first in what came from it. So no
/// connection is given another one's bytes.
///
/// `Turns` of `serving` says of each turn what the contracts of `receive`, `advance` and `sent` of
/// `serving::Connection` say.
pub fn each_is_served<D: Desk>()
    ensures { EachIsServed D.Desk }
{}

/// A connection from which no byte came is handed none, and changes nothing: the turns of the other
/// connections alone leave the node, the other desks and each of these connections the same.
pub fn silence_changes_nothing<D: Desk>()
    ensures { SilenceChangesNothing D.Desk }
{}
