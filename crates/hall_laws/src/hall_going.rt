//! How a hall can continue at every moment.

ghost use Rattle.hall_laws.specs.HallGoing.{TicksGoOn, FramesGoOn, MessagesGoOn, RunsGoOn};
ghost use Rattle.hall_laws.specs.HallGoing.{WorldsFollow, StartsCome};

use crate::stops::calls_are_happenings;
use store::keeper::Keeper;

/// Every run of a hall can continue with what its desks do of themselves: a desk makes a Tick of
/// its own, or what was sent to it comes over a connection of its own. If its memory and its store
/// do what they are asked, these turns leave whatever the desk comes to by that, and the run with
/// them is a run again, which can continue with the next.
///
/// So which states such desks can reach depends only on what serving says of a Tick and of a
/// message (`served`), and not on turns or connections. What is delivered while a frame is served,
/// and the Start after it, are included.
pub fn halls_go_on<K: Keeper>()
    ensures ticks { TicksGoOn K.Keeper }
    // Any frame that leaves its connection open, a client's too.
    ensures frames { FramesGoOn K.Keeper }
    ensures messages { MessagesGoOn K.Keeper }
    ensures runs { RunsGoOn K.Keeper }
    // What serving says of the request is what comes to the world.
    ensures worlds { WorldsFollow K.Keeper }
    // While it serves, a desk gives itself the Start that the protocol waits for.
    ensures starts { StartsCome }
{
    calls_are_happenings::<K>();
}
