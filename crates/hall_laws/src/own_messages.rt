//! What is delivered while a desk serves was sent.

ghost use Rattle.hall_laws.specs.OwnMessages.{OwnMessagesWereSent, FramesWereSent, FrontsWereSent};
ghost use Rattle.hall_laws.specs.OwnMessages.{RequestsHappen, FramesHappen};

use crate::served::calls_are_a_run;
use store::keeper::Keeper;

/// Each message that is delivered to a desk while it serves was sent to it before, if the messages
/// that its frames bring were: no other message is delivered.
///
/// That is said of one request; of frames, one after the other, each of which brings what was sent
/// before it; and of what is done of these where one of them fails.
pub fn own_messages_were_sent()
    ensures request { OwnMessagesWereSent }
    ensures frames { FramesWereSent }
    ensures fronts { FrontsWereSent }
{}

/// What a desk does while it serves happens in the world, as its calls do (`calls_are_a_run`). Of
/// messages the premise is only that those that the frames bring were sent to this
/// desk. That is said of one request, so that other desks may do anything between two frames; and
/// of frames, one after the other. It is said of all that is done, and of a front part of it, which
/// is what is done where a frame fails.
pub fn served_frames_happen<K: Keeper>()
    ensures request { RequestsHappen K.Keeper }
    ensures frames { FramesHappen K.Keeper }
{
    calls_are_a_run::<K>();
    own_messages_were_sent();
}
