//! What a majority of desks that serve decides by itself.

ghost use Rattle.hall_laws.specs.{HallServing.ServingDecides, Tangle.TangleIsDecided};

use crate::stops::{calls_are_happenings, stops_make_a_run};
use progress::laws::{no_desk_is_stuck, no_serving_desk_is_stuck};
use store::keeper::Keeper;

/// No desk that serves is stuck. After every run of a hall, whatever was lost in it, a majority of
/// the desks decides by itself what a desk of it has queued, in the queue's order: the run continues
/// with Ticks of that desk, and with messages that desks of the majority hand out to each other and
/// to themselves from then on, each of which comes in a frame over a connection of its own. With
/// each Tick and each message comes all that serving does for it: a Start where its log has grown.
/// There are no more of these turns than `progress::laws::no_desk_is_stuck` allows events.
///
/// The desks of the majority are up, their memory and their stores do what they are asked, and what
/// they hand out to each other is in the ranges of its frame. Their logs have room for two entries
/// more for each to be decided, and there are ballot numbers left, as
/// `progress::laws::no_serving_desk_is_stuck` counts them.
///
/// No promise is made that somebody ticks, or that the frames come.
pub fn majorities_decide<K: Keeper>()
    ensures { ServingDecides K.Keeper }
{
    calls_are_happenings::<K>();
    stops_make_a_run();
    no_serving_desk_is_stuck();
}

/// All that `majorities_decide` and `halls_are_not_stuck` ask can be met where it is hardest, by
/// three desks over keepers that never fail. Desk 1 stopped inside a save while it gathered
/// promises, was opened again, which lost its queue, and was given its entry again. Desk 2 has a
/// higher ballot. Desk 3 has promised that one, asks for votes for its own, and has an old vote for
/// an entry that is not decided. Of what they said six messages came, and all others are lost. So
/// desks 1 and 3 decide desk 1's entry.
pub fn a_tangle_is_decided()
    ensures { TangleIsDecided }
{
    stops_make_a_run();
    no_desk_is_stuck();
    no_serving_desk_is_stuck();
}
