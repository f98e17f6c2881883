//! What follows of the turns of a guarded connection, in any order.

ghost use Rattle.guarded.specs.LockedLaw.{DeliversUnderHall, GuardsServe};

use answers::Desk;

/// However the pieces of a stream were cut and what is sent was taken, the frames begun are served
/// as `serving::laws::turns_serve` says, and they are first in what the doors admit of what came:
/// all of it where the desk has no key, or the bodies of records that fit under a key. Each of them
/// was served as far as the caller may ask. A law: to a caller who is let in without a key the
/// answers are sent as they are.
pub fn guards_serve<D: Desk>()
    ensures { GuardsServe D.Desk }
{}

/// At a desk with a key, each frame that delivers a message is in records that fit under the hall's
/// key, of what came before it was begun: a law. So a delivered message was sent by somebody who
/// has the hall's key, as far as nobody makes tags without it.
pub fn delivers_under_hall<D: Desk>()
    ensures { DeliversUnderHall D.Desk }
{}
