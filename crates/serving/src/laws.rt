//! What follows of a connection's turns, in any order.

ghost use Rattle.serving.specs.{OutsideLaw.OutsideCallsNothing, TurnLaw.TurnsServe};

use answers::Desk;

/// However the pieces of a connection were cut and its answers taken, what was taken and what is
/// pending are the answers to the frames begun, in order, and these frames are first in what came.
/// The calls of all turns lead from the node before the first to the node after the last.
///
/// `Turns` of `specs/TurnLaw` says of each turn what the contracts of `receive`, `advance` and
/// `sent` say. It is meant of a connection that alone is served between its first turn and its
/// last.
pub fn turns_serve<D: Desk>()
    ensures { TurnsServe D.Desk }
{}

/// A frame that asks for more than its connection may makes no call of the node and no push, and
/// the node is as it was. A message of a desk is dropped, and a client is answered Refused
/// NotAllowed.
pub fn outside_calls_nothing()
    ensures { OutsideCallsNothing }
{}
