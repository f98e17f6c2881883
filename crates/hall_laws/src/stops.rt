//! Desks that stop, and what their calls are in the world.

ghost use Rattle.hall_laws.specs.Stops.{StopsMakeARun, RealLogsAgree, RealEntriesAreSubmitted};
ghost use Rattle.hall_laws.specs.Stops.{AnswerIsEvent, OpeningsAreRestarts, CallsAreHappenings};

use learner::laws::{logs_agree, logs_are_submitted};
use store::keeper::Keeper;

/// Desks that stop, or whose saves fail, anywhere in their calls make a run of the world, step by
/// step: an answered call is its event there, and a stopped or failed one is its event or nothing,
/// then a restart. What a stopped call did not hand out is sent there and never delivered. So of
/// real desks' logs at any two moments one is a prefix of the other, and every entry was submitted
/// before, by a call that was answered and whose desk accepted it.
///
/// That a stop inside a save leaves the state before the change or the one after it is what the
/// store promises; for SQLite it is the promise of its one statement.
pub fn stops_make_a_run()
    ensures run { StopsMakeARun }
    ensures agree { RealLogsAgree }
    ensures submitted { RealEntriesAreSubmitted }
    // What `handle` and `open` say of one desk is what is said here of a call.
    ensures answered { AnswerIsEvent }
    ensures opened { OpeningsAreRestarts }
{
    logs_agree();
    logs_are_submitted();
}

/// What `Node::handle` answers and leaves, over a keeper of any kind, is what happens in the world.
/// A call that is answered Ok is its event. One that is refused leaves the world as it was. And one
/// that is answered Down, and then an opening of what the store may hold, is a stopped call, with
/// its change in the store or without it.
pub fn calls_are_happenings<K: Keeper>()
    ensures { CallsAreHappenings K.Keeper }
{}
